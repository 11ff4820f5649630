//! The pages of help.

/// The page of all commands.
pub const PAGE: &str = "usage: c0far COMMAND ..

commands:
  build [-d] -o OUT FILE      compiles the text, and writes its image into OUT
  check FILE                  tells whether a text is a program, and where not
  list FILE                   prints the instructions of the text's image
  mean [-d] --turns N FILE    runs a text's program plainly, for at most N turns
  replay --schedule S FILE..  does the steps of programs and movers in S
  run [-d] FILE..             compiles texts, and runs them over a store
  help [COMMAND]              shows this page, or that of a command
  help FAULT                  tells of a fault, by its number or its name
  help faults                 lists the faults
  help images                 tells what may be wrong with an image
  help stops                  tells what each last line of a program means
  --version                   prints `c0far` and its number

A FILE whose name ends in .c0i is an image, as build writes it: check tells
whether it may be run; list, replay and run take it as it is. To mean each FILE
is a text.

Each command that reads a text takes --level 1, by which `break` and `continue`
are in the language; they are not at --level 0, the default.

status: 0 where a text is accepted, or a program ended with a result or was cut;
  1 where it stopped otherwise; 2 where a text, an image, a schedule, a file or
  the words are refused, there are too few frames or too many of anything, or a
  write failed; 3 where memory or objects ran out, or a store failed

docs/LANGUAGE.md tells what is accepted, docs/LIMITS.md the limits";

/// The page of `build`.
pub const BUILD_PAGE: &str = "usage: c0far build [-d] [--level L] [--piece C] -o OUT FILE

Compiles the text in FILE and writes its image into OUT; prints nothing. An
image in FILE is written again. What is refused leaves OUT as it was.

options:
  -d           contracts are checked when the image runs (they are not); not for
               an image
  --level L    1: the text may have `break` and `continue`; 0: it may not (0);
               not for an image
  --piece C    objects have C cells: 16, 32, 64, 128 or 256 (64); not for an
               image
  -o OUT       the file to write, best with a name that ends in .c0i; it has no
               default

status: 0 where it is written; 2 where the text or the image is refused, or a
  file cannot be read or written; 3 where memory ran out

docs/IMAGES.md tells what stands in an image";

/// The page of `check`.
pub const CHECK_PAGE: &str = "usage: c0far check [--level L] FILE

Prints `ok` where the text in FILE is a program of C0, and else one line to the
standard error: FILE:LINE:COLUMN: fault NUMBER NAME

Of an image in FILE it prints `ok` where it may be run, and else
FILE: image fault NUMBER, or FILE: verify fault NUMBER.

options:
  --level L    1: the text may have `break` and `continue`; 0: it may not (0);
               not for an image

status: 0 where it is accepted; 2 where it is refused, or cannot be read;
  3 where memory ran out

`c0far help 38` tells of fault 38, `c0far help images` of those of images;
docs/LANGUAGE.md shows each fault with a text that has it";

/// The page of `list`.
pub const LIST_PAGE: &str = "usage: c0far list [--level L] [--piece C] FILE

Compiles the text in FILE and prints each instruction of its image on a line of
its own: fF bB K: NAME OPERANDS, with the numbers of the function, of its block
and of the instruction in it. An image in FILE is printed as it is.

options:
  --level L    1: the text may have `break` and `continue`; 0: it may not (0);
               not for an image
  --piece C    objects have C cells: 16, 32, 64, 128 or 256 (64); not for an
               image

status: 0 where it is printed; 2 where the text or the image is refused, or
  cannot be read, or a write failed; 3 where memory ran out

docs/IMAGES.md tells what each instruction does";

/// The page of `mean`.
pub const MEAN_PAGE: &str =
    "usage: c0far mean [-d] [--level L] --turns N [--where] [--memory M] FILE

Runs the program of the text in FILE plainly, as the language defines it, and
prints its output and then how it ended: `result: N`, `assertion failed`,
`error: TEXT`, `null fault`, `bounds fault`, `length fault`,
`arithmetic fault`, or `cut` where it wanted more turns. Where memory runs out,
`out of memory` stands on the standard error, and nothing else is printed.

options:
  -d           checks contracts while it runs (it does not)
  --level L    1: the text may have `break` and `continue`; 0: it may not (0)
  --turns N    at most N turns, a number below 2^64: a turn is the call of a
               function of the text, or an entry of a loop's body; it has no
               default
  --where      tells on the standard error where the program stopped otherwise
               than by a result: FILE:LINE:COLUMN of the expression, or of the
               condition of an assertion or a contract, and how it stopped
  --memory M   ends it with `out of memory` where its calls, its output or what
               it has allocated take more than M MiB, and tells on the standard
               error which did, with --where also which function was called
               last; no limit where M is 0 (0)

status: 0 where it ended with a result, or was cut; 1 where it stopped
  otherwise; 2 where the text is refused, or cannot be read; 3 where memory ran
  out

`c0far help stops` tells what each last line means; docs/LIMITS.md how deep
calls nest";

/// The page of `run`.
pub const RUN_PAGE: &str = "usage: c0far run [OPTIONS] FILE..

Compiles the text in each FILE, or takes the image there, and runs these
programs side by side, by turns on the threads of W workers. Their objects move
between local memory and a store, which evacuators and fetchers see to on
threads of theirs. When all have ended it prints of each its output and then how
it ended: `result: N`, `assertion failed`, `error: TEXT`, `null fault`,
`bounds fault`, `length fault`, `arithmetic fault`, `out of memory`,
`no objects`, or `store failed`; where there are several, behind a line
`program K:`.

options:
  -d              checks contracts while programs run (it does not); not for an
                  image
  --level L       1: texts may have `break` and `continue`; 0: they may not (0)
  --piece C       frames and objects of texts have C cells: 16, 32, 64, 128 or
                  256 (64); all programs of a run have pieces of one size
  --frames F      local memory has F frames (64), at most 1,048,576
  --objects N     there are N objects (65536), at most 16,777,216, and each
                  program has an equal share of them
  --store DIR     the store is in files of the folder DIR (it is in memory).
                  Files there that are named by numbers are written over, and
                  never read first; no other file there is touched
  --fail-from K   each call of the store fails from call K on; none where K is
                  0 (0)
  --evacuators E  E movers bring objects out of frames (1), at most 64
  --fetchers Q    Q movers bring objects into frames (1), at most 64
  --workers W     W threads run the programs (4), at least 1 and at most 64
  --quantum N     a thread runs N instructions of a program at once (1000), at
                  least 1 and at most 1,000,000
  --live          writes what the program prints as it comes, turn by turn, and
                  not when it has ended; for one FILE. It runs on one thread,
                  and no worker, evacuator or fetcher does, though --frames has
                  to suffice for these, too
  --stats         when all have ended, tells on the standard error what each
                  did, in a line for each. A program: instructions, turns,
                  objects allocated, frames that these were seen in at most,
                  pieces opened, objects that it brought in, put into the
                  store, and left as they were clean, calls of the store and
                  how many failed, hints and how many were dropped. An
                  evacuator: rounds, objects that left, that were used
                  meanwhile, and that the store refused. A fetcher: objects
                  brought in, hints let go, and gets that failed. And the time
                  that the run took, if a clock tells
  --where         when all have ended, tells on the standard error where the
                  program of a text stopped otherwise than by a result:
                  FILE:LINE:COLUMN, and how; and why a program wanted
                  something: which call of the store was refused, of which
                  object, or how many objects were in use
  --memory M      ends a program with `out of memory` where its calls, or its
                  output, take more than M MiB, and tells on the standard error
                  which did, with --where also which function was called last;
                  no limit where M is 0 (0). What its objects take is bounded by
                  --frames and --objects

status: 0 where each ended with a result; 1 where one stopped otherwise; 2 where
  a text or an image is refused, or cannot be read, or there are too few frames
  or too many of anything; 3 where memory or objects ran out, or the store
  failed

`c0far help stops` tells what each last line means; docs/LIMITS.md how many
objects there are";

/// The page of `replay`.
pub const REPLAY_PAGE: &str = "usage: c0far replay [OPTIONS] --schedule S FILE..

Compiles the text in each FILE, or takes the image there, and does the steps
that the file S lists, one a line, for programs that share local memory and its
movers. Then it prints of each program its output and how it ended, as run does,
or `running`; where there are several, behind a line `program K:`.

options, besides those of run but for --live, --stats, --where
and --memory:
  --schedule S    the steps; it has no default
  --workers W     not used, but within the limits of run (4)
  --quantum N     not used, but within the limits of run (1000)

status: 0 where each program ended with a result, or runs; 1 where one stopped
  otherwise; 2 where a text, an image or a line of the schedule is refused, a
  file cannot be read, or there are too few frames or too many of anything; 3
  where memory or objects ran out, or the store failed

`c0far help run` tells of run's options; docs/SCHEDULES.md what a line may say";

/// The page of the last lines.
pub const STOPS_PAGE: &str =
    "The last line tells how a program ended. With --where, run and mean tell on the
standard error where it stopped.

result: N         main returned N
assertion failed  the condition of an assert is false, or with -d a contract
                  does not hold: print what it names in front of it
error: TEXT       the program called error(TEXT)
null fault        *p or p->f, where p is NULL: test p != NULL in front of it
bounds fault      A[i], where i is below 0 or not below the length of A: print
                  i, and look at the first and the last i of the loop
length fault      alloc_array(t, n), where n is below 0
arithmetic fault  / or % by 0, or of the least int by -1; or a shift by less
                  than 0 or more than 31

Of run and replay alone:
out of memory     a growth was refused: a recursion without an end, or more
                  output, objects or calls than the machine has memory for, or
                  than --memory lets them take
no objects        an allocation wanted more objects than the program has left;
                  none is given back before the end: give it more by --objects N
store failed      the store could not be written or read: see that the folder of
                  --store is there, that its disk has room, that the files there
                  whose names are numbers are regular files, and that no
                  --fail-from is asked for

Of mean alone:
cut               the program wanted more turns: give it more by --turns N;
                  where no number is enough, look for a loop that never ends

Of replay alone:
running           the schedule ended first: give it more lines

In place of a program's lines, run and replay may say
too small: need A have B  there are too few frames: give them by --frames A
too many                  a number is beyond its limit (docs/LIMITS.md)
piece differs: program K  an image has pieces of another size than the first
                          program: compile them with one --piece
refused line K            that line of the schedule is none, or what it says
                          cannot be done then (docs/SCHEDULES.md)";

/// The page that lists the faults.
pub const FAULTS_PAGE: &str =
    "FILE:LINE:COLUMN: fault NUMBER NAME tells why a text is refused, and where.
`c0far help NUMBER` or `c0far help NAME` tells of one, with a text that has it.

10 BadByte            a byte over 127
11 BadToken           bytes that are no token
12 OpenComment        a comment or an annotation that is not closed
20 Syntax             no program begins with the tokens up to and with that one
21 TooDeep            more than 200 nodes from the root to a leaf
22 TooLarge           too long a text, too many locals, functions or cells
30 UnknownName        a name that is not declared before
31 UnknownField       the struct has no such field
32 DuplicateName      a name given twice
33 TypeMismatch       a value or an operand of another type
34 NotSmall           a struct where a small value is needed
35 VoidUse            void but as a result's type, or the value of a void call
36 ArgumentCount      too few or too many arguments
37 NotDestination     what is assigned is no local and no place of the heap
38 NotAssigned        a local is read that some path has not assigned
39 NoReturn           a path of a function ends without return
40 NotDefined         what is called is defined nowhere
41 BadMain            there is no main, or it is not int main()
42 StructNotComplete  a struct is used before its definition
43 NullDereference    * or -> on NULL itself
44 BadContract        a part of a contract where it may not stand
45 DeclMismatch       two declarations of a function differ
46 StepDeclares       the third part of a for declares a local
47 BadUse             another #use than <conio>, or one behind a declaration
48 NotInLoop          break or continue outside the loops of its function
50 OutOfMemory        a growth was refused; it is told as `out of memory`";

/// The page on what is told of images.
pub const IMAGES_PAGE: &str =
    "FILE: image fault NUMBER tells that the bytes are no image; the first is told:
1  the bytes end within the image
2  the first four bytes are not those of an image
3  the version is neither 1 nor 2
4  no instruction has this code
5  a size of pieces, a kind, a fact, a truth value or a character is none
6  bytes stand behind the image
7  memory ran out

FILE: verify fault NUMBER tells that the image may not be run:
1  a cell is read or written by a scope that is not aimed at it
2  a cell is read or written where no check was made, or behind the last cell
3  a scope is not shut at a call, a return or an allocation
4  more than four scopes, or a scope that the function has not
5  a block is not there, or does not end as a block has to
6  another number is out of range, or a value is of another kind
7  a fact that a block needs is not known where it is entered
8  memory ran out

What build writes has none of these: build it anew from its text.

docs/IMAGES.md tells the bytes, and which images may be run";
