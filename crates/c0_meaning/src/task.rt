//! What a plain run may still have to do.
use c0_typed::{Expression, Output, Place, Site, Statement};
use c0_values::Value;

/// What is called.
#[derive(Clone, Copy)]
pub(crate) enum Callee {
    /// The function with this number.
    Function(u32),
    Library(Output),
}

/// How far a statement is.
#[derive(Clone, Copy)]
pub(crate) enum Progress {
    /// It begins.
    Begun,
    /// What it evaluates first is given.
    Given,
    /// A loop before its invariants, with the turns that it may take at most.
    Again(u64),
    /// A loop whose condition is given, with these turns.
    Tested(u64),
    /// A loop whose body is done, with the turns that it may take still.
    Turned(u64),
}

/// A task. The values and places that it takes are those that were given last by the tasks before it.
#[derive(Drop)]
pub(crate) enum Task<'p> {
    /// Gives the value of an expression.
    Evaluate(&'p Expression),
    /// The same, where what it evaluates first is given.
    Combine(&'p Expression),
    /// Gives the place that is meant.
    Locate(&'p Place),
    /// The same, where what it stands on is given.
    Reach(&'p Place),
    Execute(&'p Statement, Progress),
    /// Statements in order.
    ExecuteAll(&'p [Statement]),
    /// Conditions of a contract, where contracts are checked.
    Check(&'p [Expression]),
    /// Stops the program where the value, which is that of this condition, is false.
    Assert(&'p Expression),
    /// The value is an argument: those that are still to be evaluated, the values of those before it, and what is called.
    Argument(&'p [Expression], Vec<Value>, Callee),
    /// Gives what stands at the place, which stays.
    Peek,
    /// What a `return` goes to.
    EndBody,
    /// The end of a call, with the locals of its caller, and how many calls might be under way besides.
    EndCall(Vec<Value>, u64),
}

/// Where an expression stands, if it tells.
fn site_of(expression: &Expression) -> Option<Site> {
    match expression {
        Expression::At(site, _) => Some(*site),
        _ => None,
    }
}

/// Where a statement stands that may stop the program when its value is given.
fn statement_site(statement: &Statement) -> Option<Site> {
    match statement {
        Statement::Update(_, _, value)
        | Statement::StoreUpdate(_, _, value)
        | Statement::Assert(value)
        | Statement::Error(value) => site_of(value),
        _ => None,
    }
}

impl<'p> Task<'p> {
    /// Where that stands in the text which stops the program, if this task does.
    pub(crate) fn site(&self) -> Option<Site> {
        match self {
            Task::Combine(Expression::Binary(_, operand, _)) => site_of(operand),
            Task::Combine(Expression::AllocArray(_, operand)) => site_of(operand),
            Task::Reach(Place::Deref(_, operand)) => site_of(operand),
            Task::Reach(Place::Index(_, operand, _)) => site_of(operand),
            Task::Execute(statement, Progress::Given) => statement_site(statement),
            Task::Assert(condition) => site_of(condition),
            _ => None,
        }
    }
}
