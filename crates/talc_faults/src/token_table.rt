// The rows of hints for a token of a source text that no program has there: the first counts whose tests all hold.

use crate::choice::{At, Row};

// The narrow ones, which come first.
pub(crate) static E03_FIRST: [Row; 37] = [
    (
        &[(At::Told, "wanted one of: int "), (At::Before, "ref")],
        "a cell's type has that of what it holds: `ref int`",
    ),
    (
        &[
            (At::Told, "wanted one of: a name; "),
            (At::Before, "let"),
            (At::Found, "= : 1"),
        ],
        "behind a `let` stands the name of the value: `let x = e in ..`",
    ),
    (
        &[(At::Told, "wanted one of: a name; "), (At::Inside, "open")],
        "a package is opened by `open [a, x] = e1 in e2`",
    ),
    (
        &[
            (At::Told, "wanted one of: a name; "),
            (At::Before, "all some"),
        ],
        "an `all` or a `some` has one name, with a dot behind it: `all a. all b. T`",
    ),
    (
        &[(At::Earlier, "for"), (At::Found, "in")],
        "there are no loops: a `fix` that calls itself goes round, as in docs/HOWTO.md",
    ),
    (
        &[(At::Told, "wanted one of: .; "), (At::Earlier, "gen")],
        "a `gen` has one type name, with a dot behind it: `gen a. gen b. e`",
    ),
    (
        &[(At::Told, "wanted one of: .; "), (At::Earlier, "all some")],
        "an `all` or a `some` has one name, with a dot behind it: `all a. all b. T`",
    ),
    (
        &[(At::Before, "gen"), (At::Found, "[ ( <")],
        "behind a `gen` stands a name, with a dot behind it: `gen a. e`",
    ),
    (
        &[(At::Inside, "<"), (At::Found, ":")],
        "fields have no names: a tuple is `<1, 2>`, its type `<T1, T2>`, and its first field `#1 e`",
    ),
    (
        &[(At::Found, ","), (At::Behind, "let open")],
        "behind the value of a `let` stands an `in`, and no comma: `let x = 1 in let y = 2 in ..`",
    ),
    (
        &[(At::Told, "wanted one of: > , ->")],
        "a comma or a `>` is missing before it: a tuple's type is `<T1, T2>`",
    ),
    (
        &[(At::Earlier, "#"), (At::Before, "1")],
        "behind `#1` stands the tuple: `#1 e` is its first field",
    ),
    (
        &[(At::Told, "wanted one of: ) "), (At::Found, "in")],
        "a `)` is missing before this `in`",
    ),
    (
        &[(At::Told, "wanted one of: > "), (At::Found, "in")],
        "a `>` is missing before this `in`; and `a < b` is no test: docs/HOWTO.md makes `less`",
    ),
    (
        &[(At::Told, "wanted one of: ] "), (At::Found, ",")],
        "`[ ]` has one type, as in `e[T1][T2]`; a package is opened by `open [a, x] = e1 in e2`",
    ),
    (
        &[(At::Told, "wanted one of: ] ")],
        "a `]` is missing before it: a type is given by `e[T]`",
    ),
    (
        &[(At::Told, "wanted one of: ,; "), (At::Inside, "open")],
        "a package is opened by `open [a, x] = e1 in e2`",
    ),
    (
        &[(At::Told, "wanted one of: , ->"), (At::Inside, "pack")],
        "a package is `pack[T, e] as some a. S`, with the type that it then has",
    ),
    (
        &[(At::Before, "let"), (At::Found, "int")],
        "a value is named by `let x = e in ..`, with no other word and no type",
    ),
    (
        &[
            (At::Told, "wanted one of: =; "),
            (At::Before, "mut var val const"),
        ],
        "what changes is a cell: `let c = ref 0 in ..` makes one, and `c := e` sets it",
    ),
    (
        &[(At::Told, "wanted one of: =; "), (At::Found, ",")],
        "a `let` names one value: `let p = e in let a = #1 p in ..` names its first field",
    ),
    (
        &[(At::Told, "wanted one of: =; "), (At::Found, "1 - ! # ->")],
        "a `let` has a `=` behind its name: `let x = e in ..`",
    ),
    (
        &[(At::Inside, "fix"), (At::Before, "("), (At::Found, ")")],
        "a `fix` has one argument, also where none is needed: `fix f(u:<>):T. e` is called by `f <>`",
    ),
    (
        &[
            (At::Told, "wanted one of: ) ->"),
            (At::Found, "@"),
            (At::Behind, ":"),
        ],
        "a `fix` has one argument: a tuple, as in `fix f(p:<T1, T2>):T3. e`, or a `fix` in its body",
    ),
    (
        &[(At::Found, ":"), (At::Behind, ":")],
        "there is no list: docs/HOWTO.md makes one as a fold",
    ),
    (
        &[(At::Found, "["), (At::Behind, "]")],
        "there is no list: docs/HOWTO.md makes one as a fold",
    ),
    (
        &[(At::Before, "["), (At::Found, "]")],
        "a type stands in `[ ]`, as in `e[int]`; and there is no list: docs/HOWTO.md makes one",
    ),
    (
        &[
            (At::Told, "wanted one of: the end"),
            (At::Before, "1"),
            (At::Found, ","),
            (At::Behind, "1"),
        ],
        "a tuple stands in `< >`, as in `<1, 2>`; and a number has no commas",
    ),
    (
        &[(At::Before, "1"), (At::Found, "->")],
        "there is no `match`: docs/HOWTO.md has one of several kinds",
    ),
    (
        &[(At::Before, "ref"), (At::Found, "int")],
        "a cell is made by `ref e`, of its first value and with no type",
    ),
    (
        &[(At::Told, "wanted one of: the end"), (At::Found, "in")],
        "this `in` has no `let` and no `open` before it: a step is named, `let u = e1 in e2`",
    ),
    (
        &[
            (At::Told, "wanted one of: a name a number"),
            (At::Found, "all some"),
        ],
        "types stand behind a `:` and in `[ ]`: a value for each type is `gen a. e`",
    ),
    (
        &[
            (At::Earlier, "mov add sub mul ld st bnz malloc"),
            (At::Found, ","),
        ],
        "an assembly text begins with `tal 1` or `tal 2`, and a source is an expression",
    ),
    (
        &[(At::Before, "$"), (At::Found, ".")],
        "an assembly text begins with `tal 1` or `tal 2`, and a source is an expression",
    ),
    (
        &[(At::Before, "$"), (At::Found, "int")],
        "a value is named by `let x = e in ..`, with no other word and no type",
    ),
    (
        &[(At::Earlier, "lambda fun fn function"), (At::Found, ".")],
        "a function is `fix f(x:T1):T2. e`, with the types that it takes and gives",
    ),
    (
        &[(At::Before, "*"), (At::Found, "*")],
        "there is no `**`: docs/HOWTO.md makes a power by a `fix`",
    ),
];

// By what stands around it.
pub(crate) static E03_ROWS: [Row; 39] = [
    (
        &[(At::Before, "if0")],
        "a choice is `if0(e, a, b)`: a where e is 0, and else b",
    ),
    (
        &[(At::Earlier, "let"), (At::Before, "rec")],
        "a function that calls itself is a `fix`: `let f = fix f(x:T1):T2. e in ..`",
    ),
    (
        &[(At::Before, "let fix gen all some"), (At::Found, "@")],
        "a name stands here, and this word is one of the language's own: take another one",
    ),
    (
        &[(At::Told, "wanted one of: a name; "), (At::Inside, "fix")],
        "an argument's name stands before its type: `fix f(x:T1):T2. e`",
    ),
    (
        &[(At::Told, "wanted one of: a name; "), (At::Before, "fix")],
        "a name stands behind a `fix`, also where nothing calls it: `fix f(x:T1):T2. e`",
    ),
    (
        &[
            (At::Told, "wanted one of: (; "),
            (At::Earlier, "fix"),
            (At::Found, "@"),
        ],
        "the argument of a `fix` and its type stand in `( )`: `fix f(x:T1):T2. e`",
    ),
    (
        &[(At::Told, "wanted one of: =; "), (At::Found, "@ (")],
        "a `let` takes no arguments: `let f = fix f(x:T1):T2. e in ..` names a function",
    ),
    (
        &[(At::Told, "wanted one of: =; "), (At::Found, ":=")],
        "a `let` has a `=`, as in `let x = e in ..`: a `:=` sets a cell",
    ),
    (
        &[(At::Before, "("), (At::Found, ")")],
        "the empty tuple is `<>`: `f <>` calls f with it",
    ),
    (
        &[
            (At::Told, "wanted one of: ) "),
            (At::Inside, "if0"),
            (At::Found, "@ 1 > ]"),
        ],
        "a `)` is missing before it: an `if0` ends with one, `if0(e, a, b)`",
    ),
    (
        &[(At::Inside, "if0"), (At::Found, ") , @ 1")],
        "an `if0` has three parts, with commas between: `if0(e, a, b)`",
    ),
    (
        &[(At::Inside, "fix"), (At::Found, ":")],
        "a `)` is missing before it: `fix f(x:T1):T2. e`",
    ),
    (
        &[(At::Inside, "fix"), (At::Found, ",")],
        "a `fix` has one argument: a tuple, as in `fix f(p:<T1, T2>):T3. e`, or a `fix` in its body",
    ),
    (
        &[(At::Told, "wanted one of: :; "), (At::Inside, "fix")],
        "an argument has its type behind it: `fix f(x:T1):T2. e`",
    ),
    (
        &[
            (At::Told, "wanted one of: :; "),
            (At::Before, ")"),
            (At::Found, "("),
        ],
        "a `fix` has one argument: a tuple, as in `fix f(p:<T1, T2>):T3. e`, or a `fix` in its body",
    ),
    (
        &[
            (At::Told, "wanted one of: (; "),
            (At::Earlier, "fix"),
            (At::Found, "[ <"),
        ],
        "a `fix` takes no types: `gen a. fix f(x:a):a. e` is a function for each type a",
    ),
    (
        &[
            (At::Told, "wanted one of: int "),
            (At::Inside, "fix"),
            (At::Found, "( @"),
        ],
        "the types are `int`, `T1 -> T2`, `<T1, T2>`, `all a. T`, `some a. T` and `ref T`",
    ),
    (
        &[(At::Inside, "fix"), (At::Found, "*")],
        "a tuple's type is `<T1, T2>`, and a function's `T1 -> T2`",
    ),
    (
        &[(At::Inside, "fix"), (At::Before, "@"), (At::Found, "@")],
        "the types are `int`, `T1 -> T2`, `<T1, T2>`, `all a. T`, `some a. T` and `ref T`",
    ),
    (
        &[(At::Told, "wanted one of: . ->")],
        "before the body of a `fix` stands a dot, behind its result's type: `fix f(x:T1):T2. e`",
    ),
    (
        &[(At::Told, "wanted one of: ) ->"), (At::Found, ",")],
        "a tuple's type is `<T1, T2>`: its parts stand in `< >`",
    ),
    (
        &[(At::Told, "wanted one of: [; "), (At::Before, "pack")],
        "a package is `pack[T, e] as some a. S`, with the type that it then has",
    ),
    (
        &[(At::Told, "wanted one of: as")],
        "a package is `pack[T, e] as some a. S`, with the type that it then has",
    ),
    (
        &[(At::Told, "wanted one of: [; "), (At::Before, "open")],
        "a package is opened by `open [a, x] = e1 in e2`",
    ),
    (
        &[
            (At::Told, "wanted one of: a name; "),
            (At::Before, "let"),
            (At::Found, "( < ["),
        ],
        "a `let` names one value: `let p = e in let a = #1 p in ..` names its first field",
    ),
    (
        &[(At::Before, "<"), (At::Found, "-")],
        "a cell c is set by `c := e`, and what it holds is `!c`",
    ),
    (
        &[(At::Before, "+ - *"), (At::Found, "=")],
        "a cell c is set by `c := e`, and what it holds is `!c`",
    ),
    (
        &[(At::Before, "!"), (At::Found, "=")],
        "a is not b where `if0(a - b, no, yes)` takes its last part",
    ),
    (
        &[(At::Before, "("), (At::Found, "*")],
        "a comment begins with `--` and goes to the line's end",
    ),
    (
        &[(At::Before, "= in , := < -> . :"), (At::Found, "*")],
        "what a cell c holds is `!c`",
    ),
    (
        &[
            (At::Told, "wanted one of: a name a number"),
            (At::Before, "("),
            (At::Found, "int"),
        ],
        "a type is given in `[ ]`, as in `e[int]`",
    ),
    (
        &[
            (At::Told, "wanted one of: > "),
            (At::Before, "<"),
            (At::Found, "int"),
        ],
        "a type is given in `[ ]`, as in `e[int]`",
    ),
    (
        &[(At::Before, "["), (At::Found, "1")],
        "a field is taken by `#1 e`: `[ ]` has types, as in `e[int]`",
    ),
    (
        &[(At::Before, "#")],
        "behind a `#` stands a field's number, as in `#1 e`; a comment begins with `--`",
    ),
    (
        &[(At::Before, "1"), (At::Found, ".")],
        "there are integers alone, in decimal digits: no fractions, and no other signs in a number",
    ),
    (
        &[(At::Before, "@ ) > ]"), (At::Found, "."), (At::Behind, "1")],
        "a field is taken by `#1 e`, its number first",
    ),
    (
        &[(At::Before, ","), (At::Found, ">")],
        "a field is missing behind the comma, or the comma is too much",
    ),
    (
        &[(At::Before, "+"), (At::Found, "+")],
        "there is no `++`: one more is `x + 1`, and a cell c is set by `c := !c + 1`",
    ),
    (
        &[(At::Earlier, "type"), (At::Found, "=")],
        "types have no names of their own: docs/HOWTO.md has a short name for a type",
    ),
];

// Where none of those applies: by the token.
pub(crate) static E03_LAST: [Row; 36] = [
    (
        &[(At::Told, "wanted one of: int ")],
        "a type stands here: `int`, `T1 -> T2`, `<T1, T2>`, `all a. T`, `some a. T` or `ref T`",
    ),
    (
        &[(At::Told, "wanted one of: ) ->"), (At::Inside, "fix")],
        "a `)` is missing before it: `fix f(x:T1):T2. e`",
    ),
    (
        &[
            (At::Told, "wanted one of: the end"),
            (At::Before, "@ 1 ) ] >"),
            (At::Found, "let open"),
        ],
        "as an argument a `let` or an `open` stands in `( )`; or an `in` is missing before it",
    ),
    (
        &[(At::Found, "let open")],
        "an `in` is missing before it: `let x = e in ..` names x for what stands behind the `in`",
    ),
    (
        &[(At::Found, "fix gen")],
        "where a `fix` or a `gen` is an argument or an operand, it stands in `( )`",
    ),
    (
        &[(At::Found, "in")],
        "an expression is missing before this `in`, or it closes no `let` and no `open`",
    ),
    (
        &[(At::Found, "->")],
        "`->` stands in types alone: a function is `fix f(x:T1):T2. e`",
    ),
    (
        &[(At::Found, "-"), (At::Behind, "@ ( ! #")],
        "a negative number is written with `~`, as `~5`, and the negative of a name x is `0 - x`",
    ),
    (
        &[(At::Before, ")"), (At::Found, ":")],
        "a function is `fix f(x:T1):T2. e`, with the types that it takes and gives",
    ),
    (
        &[(At::Inside, "("), (At::Found, ":")],
        "a function is `fix f(x:T1):T2. e`, with the types that it takes and gives",
    ),
    (
        &[(At::Found, "="), (At::Behind, ">")],
        "a function is `fix f(x:T1):T2. e`, also one that needs no name: there is no `=>`",
    ),
    (
        &[(At::Before, "<"), (At::Found, "=")],
        "there is no order: docs/HOWTO.md makes `less`",
    ),
    (
        &[(At::Inside, "<"), (At::Found, "=")],
        "fields have no names: a tuple is `<1, 2>`, and its first field `#1 e`",
    ),
    (
        &[(At::Earlier, "if"), (At::Found, "=")],
        "a choice is `if0(e, a, b)`: a where e is 0, and else b",
    ),
    (
        &[
            (At::Earlier, "val var const def define auto where set"),
            (At::Found, "="),
        ],
        "a value is named by `let x = e in ..`, with no other word and no type",
    ),
    (
        &[(At::Earlier, "$"), (At::Before, "@"), (At::Found, "=")],
        "a value is named by `let x = e in ..`, with no other word and no type",
    ),
    (
        &[
            (At::Earlier, "in and or then else return"),
            (At::Found, "="),
        ],
        "a is b where `if0(a - b, yes, no)` takes yes; and a cell is set by `c := e`",
    ),
    (
        &[
            (At::Told, "wanted one of: the end"),
            (At::Earlier, "@"),
            (At::Before, "@ )"),
            (At::Found, "="),
        ],
        "a function is `let f = fix f(x:T1):T2. e in ..`; a is b where `if0(a - b, ..)` says so",
    ),
    (
        &[(At::Told, "wanted one of: in :="), (At::Found, "=")],
        "a `let` names one value, a cell is set by `c := e`, and a is b where `if0(a - b, ..)` says so",
    ),
    (
        &[(At::Told, "wanted one of: the end * "), (At::Found, ",")],
        "a step before another one is named, as in `let u = c := 1 in ..`",
    ),
    (
        &[(At::Told, "wanted one of: in * "), (At::Found, ",")],
        "a step before another one is named, as in `let u = c := 1 in ..`",
    ),
    (
        &[(At::Found, "=")],
        "`=` stands in a `let` or an `open`; a `fix` has a dot there; a is b where `if0(a - b, ..)` says so",
    ),
    (
        &[(At::Found, "(")],
        "a `let` takes no arguments: `let f = fix f(x:T1):T2. e in ..` names a function",
    ),
    (
        &[(At::Before, "@"), (At::Found, "."), (At::Behind, "@")],
        "fields have numbers, and no names: `#1 e` is the first field of a tuple",
    ),
    (
        &[(At::Found, ".")],
        "a `fix` has its result's type before the dot, `fix f(x:T1):T2. e`; a field, `#1 e`",
    ),
    (
        &[(At::Found, ":")],
        "a `let` names no type, `let x = e in ..`; a `fix` names two, `fix f(x:T1):T2. e`",
    ),
    (
        &[(At::Found, ",")],
        "fields stand in `< >`, as in `f <1, 2>`; an `if0` has three parts, and a `let` names one value",
    ),
    (
        &[(At::Found, "-")],
        "a negative number is written with `~`, as `~5`: a `-` stands between two numbers",
    ),
    (
        &[(At::Found, ")")],
        "this `)` closes nothing, or an expression is missing before it; and `a < b` is no test",
    ),
    (
        &[(At::Before, ">"), (At::Found, ">")],
        "this `>` closes nothing: a tuple is `<1, 2>`, and one in another `<<1, 2>, 3>`",
    ),
    (
        &[(At::Found, ">")],
        "there is no order: docs/HOWTO.md makes `less`; here a `>` ends a tuple, `<1, 2>`",
    ),
    (
        &[(At::Found, "[")],
        "`[ ]` has types, `e[int]`, or names: a tuple is `<1, 2>`, and its first field `#1 e`",
    ),
    (
        &[(At::Told, "wanted one of: :; ")],
        "behind the argument of a `fix` stands its result's type: `fix f(x:T1):T2. e`",
    ),
    (
        &[(At::Found, "+ *")],
        "an operand is missing before this sign, which stands between two: `a + b`, `a * b`",
    ),
    (
        &[(At::Found, "]")],
        "this `]` closes nothing, or a type is missing before it",
    ),
    (
        &[(At::Found, "as")],
        "an `as` stands behind a `pack` alone: `pack[T, e] as some a. S`",
    ),
];
