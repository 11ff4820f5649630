//! The operators on 32-bit two's complement numbers.
ghost use Rattle.std.specs.Prelude.{◌≡◌};
ghost use Rattle.std.specs.Result.{result_ok};
ghost use Rattle.cells.specs.Numbers.{op_value};

/// An operator on two numbers of 32 bits.
#[derive(Clone, Copy, PartialEq, Eq, Debug)]
pub enum Int32Op {
    Add,
    Sub,
    Mul,
    Div,
    Mod,
    And,
    Or,
    Xor,
    Shl,
    Shr,
}

/// An arithmetic fault: a divisor of 0, the least number divided by -1, or a shift by an amount below 0 or above 31.
#[derive(Clone, Copy, PartialEq, Eq, Debug)]
pub struct Arith;

impl Int32Op {
    /// The operator's value: sums, differences and products modulo 2^32, quotients that truncate toward zero, remainders with
    /// the sign of the dividend, and `Shr` copying the sign. `Err` exactly where there is an arithmetic fault.
    pub fn apply(self, a: i32, b: i32) -> Result<i32, Arith>
        ensures { result_ok result ≡ op_value self a b }
    {
        match self {
            Int32Op::Add => Ok(a.wrapping_add(b)),
            Int32Op::Sub => Ok(a.wrapping_sub(b)),
            Int32Op::Mul => Ok(a.wrapping_mul(b)),
            Int32Op::Div => a.checked_div(b).ok_or(Arith),
            Int32Op::Mod => a.checked_rem(b).ok_or(Arith),
            Int32Op::And => Ok(a & b),
            Int32Op::Or => Ok(a | b),
            Int32Op::Xor => Ok(a ^ b),
            Int32Op::Shl => shifted_left(a, b),
            Int32Op::Shr => shifted_right(a, b),
        }
    }
}

fn shifted_left(a: i32, b: i32) -> Result<i32, Arith>
    ensures { result_ok result ≡ op_value Int32Op.Shl a b }
{
    if b < 0 || 31 < b {
        return Err(Arith);
    }
    Ok(a << b as u32)
}

fn shifted_right(a: i32, b: i32) -> Result<i32, Arith>
    ensures { result_ok result ≡ op_value Int32Op.Shr a b }
{
    if b < 0 || b > 31 {
        return Err(Arith);
    }
    Ok(a >> b as u32)
}
