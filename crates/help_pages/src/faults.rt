//! What is told of each fault of a text.

/// Of each fault its number, its name and the page on it.
pub const FAULTS: [(&str, &str, &str); 26] = [
    (
        "10",
        "BadByte",
        "fault 10 BadByte

A byte over 127 stands in the text, also in a comment or a string.

A text that has it:
  a comment with a letter that is not ASCII, told at its first byte

Write:
  ASCII alone: ue for a letter with dots. Where 1:1 is told, the file
  was saved with a byte order mark: save it without",
    ),
    (
        "11",
        "BadToken",
        "fault 11 BadToken

Bytes that are no token, or a number that is out of range.

A text that has it, at 1:21:
  int main() { return 2147483649; }

Write:
  a number up to 2147483648, or up to 0xFFFFFFFF. An open string, 'ab' for \"ab\",
  #include, and \\result or \\length outside a contract are told so, too",
    ),
    (
        "12",
        "OpenComment",
        "fault 12 OpenComment

A comment or an annotation is not closed.

A text that has it, at 1:1:
  /* /* */ int main() { return 0; }

Write:
  */ for each /*, since comments nest, or @*/ for /*@",
    ),
    (
        "20",
        "Syntax",
        "fault 20 Syntax

No program begins with the tokens up to and with that one.

A text that has it, at 1:24:
  int main() { int x = 1 return x; }

Write:
  what is missing in front of that token, here a ; behind the 1. Each of
  int i, j;  int a[10];  x = y = 0;  i++ < n  do  switch  is no C0;
  break and continue are with --level 1",
    ),
    (
        "21",
        "TooDeep",
        "fault 21 TooDeep

More than 200 nodes from the root of a declaration to a leaf.

A text that has it:
  a sum of 250 ones

Write:
  it in parts: a local for a part of the sum, a function for a part of the
  statements",
    ),
    (
        "22",
        "TooLarge",
        "fault 22 TooLarge

Another limit is passed: 1 MiB of text, 1,024 locals in a function,
4,096 functions, 4,096 cells in a struct.

A text that has it:
  a function with 1,025 locals

Write:
  it in several functions, or an array in place of many locals or fields",
    ),
    (
        "30",
        "UnknownName",
        "fault 30 UnknownName

A variable or a function is not declared before it is used.

A text that has it, at 1:21:
  int main() { return x; }

Write:
  a declaration in front of it; `#use <conio>` at the head of the text for
  print, println and printint; int f(); for a function that comes later",
    ),
    (
        "31",
        "UnknownField",
        "fault 31 UnknownField

The struct has no such field.

A text that has it, at 1:59:
  struct s { int a; }; int main() { return alloc(struct s)->b; }

Write:
  a field that stands in the struct",
    ),
    (
        "32",
        "DuplicateName",
        "fault 32 DuplicateName

A name is given twice.

A text that has it, at 1:31:
  int main() { int x = 1; { int x = 2; } return x; }

Write:
  another name: a local may not have that of another one around it, nor that
  of a function",
    ),
    (
        "33",
        "TypeMismatch",
        "fault 33 TypeMismatch

A value or an operand has another type than is wanted.

A text that has it, at 1:21:
  int main() { return true; }

Write:
  a value of that type: n != 0 for an int as a condition, (x & 1) == 0 for
  x & 1 == 0, p->a for p.a; nothing is converted",
    ),
    (
        "34",
        "NotSmall",
        "fault 34 NotSmall

A struct stands where a small value is needed.

A text that has it, at 1:35:
  struct s { int a; }; int main() { struct s x; return 0; }

Write:
  struct s* x = alloc(struct s);",
    ),
    (
        "35",
        "VoidUse",
        "fault 35 VoidUse

void stands for no result's type, or the value of a void call is used.

A text that has it, at 1:14:
  int main() { void x; return 0; }

Write:
  another type, or the call as a statement",
    ),
    (
        "36",
        "ArgumentCount",
        "fault 36 ArgumentCount

A call has too few or too many arguments.

A text that has it, at 1:48:
  int f(int x) { return x; } int main() { return f(); }

Write:
  as many as the function has parameters",
    ),
    (
        "37",
        "NotDestination",
        "fault 37 NotDestination

What is assigned is no local and no place of the heap.

A text that has it, at 1:14:
  int main() { 1 = 2; return 0; }

Write:
  a local, *p, p->f or A[i] on the left",
    ),
    (
        "38",
        "NotAssigned",
        "fault 38 NotAssigned

A local is read that some path has not assigned.

A text that has it, at 1:28:
  int main() { int x; return x; }

Write:
  int x = 0; or an assignment on each path. A loop counts as one that may
  not be run",
    ),
    (
        "39",
        "NoReturn",
        "fault 39 NoReturn

A path of a function with a result ends without return.

A text that has it, at 1:5:
  int f() { while (true) { return 1; } } int main() { return f(); }

Write:
  a return, or error(\"..\");, at the end. A loop counts as one that ends",
    ),
    (
        "40",
        "NotDefined",
        "fault 40 NotDefined

What is called is defined nowhere in the text.

A text that has it, at 1:35:
  int f(int x); int main() { return f(1); }

Write:
  a body for it somewhere: int f(int x) { .. }",
    ),
    (
        "41",
        "BadMain",
        "fault 41 BadMain

There is no main, told at the end of the text, or it is not int main().

A text that has it, at 1:1:
  bool main() { return true; }

Write:
  int main() { .. return 0; }, with no parameters",
    ),
    (
        "42",
        "StructNotComplete",
        "fault 42 StructNotComplete

A struct is used before its fields are known.

A text that has it, at 1:44:
  struct s; int main() { struct s* p = alloc(struct s); return 0; }

Write:
  struct s { .. }; in front of it",
    ),
    (
        "43",
        "NullDereference",
        "fault 43 NullDereference

* or -> on NULL itself.

A text that has it, at 1:21:
  int main() { return *NULL; }

Write:
  a pointer that alloc gave",
    ),
    (
        "44",
        "BadContract",
        "fault 44 BadContract

A part of a contract stands where it may not.

A text that has it, at 1:13:
  int f() /*@ requires true; @*/; int main() { return 0; }

Write:
  requires and ensures behind the header of a function with a body,
  loop_invariant behind that of a loop, assert where a statement may stand;
  what an ensures reads, the body does not assign",
    ),
    (
        "45",
        "DeclMismatch",
        "fault 45 DeclMismatch

Two declarations of a function differ.

A text that has it, at 1:15:
  int f(); bool f(); int main() { return 0; }

Write:
  the same types in each",
    ),
    (
        "46",
        "StepDeclares",
        "fault 46 StepDeclares

The third part of a for declares a local.

A text that has it, at 1:37:
  int main() { for (int i = 0; i < 1; int j = 0) { i++; } return 0; }

Write:
  the declaration in front of the for, or in its first part",
    ),
    (
        "47",
        "BadUse",
        "fault 47 BadUse

Another #use than that of <conio>, or one behind a declaration.

A text that has it, at 1:1:
  #use \"conio\"

Write:
  `#use <conio>` at the head of the text: there is no other library",
    ),
    (
        "48",
        "NotInLoop",
        "fault 48 NotInLoop

A break or a continue stands outside the loops of its function, at --level 1.

A text that has it, at 1:14:
  int main() { break; return 0; }

Write:
  it in a loop, or return",
    ),
    (
        "50",
        "OutOfMemory",
        "fault 50 OutOfMemory

A growth was refused while the text was read; `out of memory` is told,
with status 3, and no place.

A text that has it:
  any, where the machine has no memory left

Write:
  less beside it, or on a larger machine",
    ),
];
