// The rows of hints for faults of a source text: of those of the fault's code the first counts whose tests all hold.

use crate::choice::{At, Row};

// A byte that begins no token.
pub(crate) static E01_ROWS: [Row; 22] = [
    (
        &[(At::Found, "|"), (At::Before, "with of")],
        "there is no `match`: docs/HOWTO.md has one of several kinds",
    ),
    (
        &[(At::Found, "|"), (At::Behind, ">")],
        "a call is `f x`: there is no `|>`",
    ),
    (
        &[(At::Found, "_"), (At::Before, "1")],
        "a number has decimal digits alone",
    ),
    (
        &[(At::Found, "{"), (At::Before, ") else then do")],
        "there are no `{ }`: a function is `fix f(x:T1):T2. e`, and a choice `if0(e, a, b)`",
    ),
    (
        &[(At::Found, "/"), (At::Behind, "=")],
        "a is not b where `if0(a - b, no, yes)` takes its last part",
    ),
    (
        &[(At::Found, "&"), (At::Before, "= ( , in")],
        "there are no addresses: a cell is made by `ref e`, and what it holds is `!c`",
    ),
    (
        &[(At::Found, "$ @")],
        "there is no such sign: a call is `f x`, and `( )` group",
    ),
    (
        &[(At::Found, ";"), (At::Inside, "if0 < fix")],
        "a comma stands between parts and fields: `if0(e, a, b)`, `<1, 2>`; there is no `;`",
    ),
    (
        &[(At::Found, ";")],
        "there is no `;`: a step before another one is named, as in `let u = c := 1 in ..`",
    ),
    (
        &[(At::Found, "/"), (At::Behind, "* /")],
        "a comment begins with `--` and goes to the line's end",
    ),
    (
        &[(At::Found, "/")],
        "there is no division (docs/HOWTO.md makes one), and a comment begins with `--`",
    ),
    (
        &[(At::Found, "%")],
        "there is no remainder: docs/HOWTO.md makes one by `+`, `-` and `*`",
    ),
    (
        &[(At::Found, "\\ greek")],
        "a function is `fix f(x:T1):T2. e`, with the types that it takes and gives",
    ),
    (
        &[(At::Found, "\"")],
        "there are no texts: values are integers, functions, tuples, packages and cells",
    ),
    (
        &[(At::Found, "'")],
        "there are no texts, and a name has no `'`: letters, digits and `_` make a name",
    ),
    (
        &[(At::Found, "{ }")],
        "`{ }` is of assembly, which begins with `tal 1` or `tal 2`; here `( )` and `< >` group",
    ),
    (
        &[(At::Found, "& |")],
        "there are no truth values: `if0(e, a, b)` tests whether an integer is 0",
    ),
    (
        &[(At::Found, "mark")],
        "the text begins with bytes that are not its own: save it as plain ASCII, with no byte order mark",
    ),
    (
        &[(At::Found, "~")],
        "digits follow a `~` at once: of a name or an expression the negative is `0 - e`",
    ),
    (
        &[(At::Found, "_")],
        "a name begins with a letter, also one that is not used: `let u = e in ..`",
    ),
    (
        &[(At::Found, "?")],
        "a choice is `if0(e, a, b)`: there is no `?`",
    ),
    (
        &[(At::Found, "^")],
        "there is no `^`: docs/HOWTO.md makes a power by a `fix`",
    ),
];

// The end of the text.
pub(crate) static E04_ROWS: [Row; 11] = [
    (
        &[(At::Earlier, "#"), (At::Before, "1")],
        "behind `#1` stands the tuple: `#1 e` is its first field",
    ),
    (
        &[(At::Told, "wanted one of: , "), (At::Inside, "if0")],
        "an `if0` has three parts, with commas between: `if0(e, a, b)`",
    ),
    (
        &[(At::Told, "wanted one of: > "), (At::Earlier, "<")],
        "a field or a `>` is missing at the end; and `a < b` is no test: docs/HOWTO.md makes `less`",
    ),
    (
        &[(At::Told, "wanted one of: in")],
        "an `in` and what stands behind it are missing: a `let` is `let x = e in ..`",
    ),
    (
        &[(At::Told, "wanted one of: ) ")],
        "a `)` is missing at the end",
    ),
    (
        &[(At::Told, "wanted one of: > ")],
        "a field or a `>` is missing at the end",
    ),
    (
        &[(At::Told, "wanted one of: ] ")],
        "a `]` is missing at the end",
    ),
    (
        &[(At::Told, "wanted one of: :; ")],
        "a `fix` ends too early: it is `fix f(x:T1):T2. e`",
    ),
    (
        &[(At::Told, "wanted one of: . ")],
        "a `fix` ends too early: it is `fix f(x:T1):T2. e`",
    ),
    (
        &[(At::Told, "wanted one of: =; ")],
        "a `let` ends too early: it is `let x = e in ..`",
    ),
    (
        &[(At::Told, "wanted one of: as")],
        "a package is `pack[T, e] as some a. S`, with the type that it then has",
    ),
];

// A name that nothing binds.
pub(crate) static E05_ROWS: [Row; 28] = [
    (
        &[(At::Found, "if then else elif")],
        "a choice is `if0(e, a, b)`: a where e is 0, and else b",
    ),
    (
        &[(At::Found, "true false not and or")],
        "there are no truth values: an `if0` takes its first branch where its integer is 0",
    ),
    (
        &[(At::Found, "fun fn rec def function lambda")],
        "a function is `fix f(x:T1):T2. e`, also one that does not call itself",
    ),
    (
        &[(At::Found, "mod div")],
        "there is no division: docs/HOWTO.md makes one by `+`, `-` and `*`",
    ),
    (
        &[(At::Kind, "own")],
        "the function that calls itself is the `fix`: a `let` is not seen in its own value",
    ),
    (
        &[(At::Kind, "later")],
        "it is bound further down: put its `let` before; docs/HOWTO.md has two that call each other",
    ),
    (
        &[(At::Kind, "ended")],
        "what binds it has ended: a `fix` is seen in its body alone, a `let` behind its `in`",
    ),
    (
        &[(At::Found, "fst snd first second")],
        "a tuple's field is taken by `#1 e` and `#2 e`",
    ),
    (
        &[(At::Found, "nil cons list hd tl head tail")],
        "there is no list: docs/HOWTO.md makes one as a fold",
    ),
    (
        &[(At::Found, "match case switch with")],
        "there is no `match`: docs/HOWTO.md has one of several kinds",
    ),
    (
        &[(At::Found, "while for loop do repeat until")],
        "there are no loops: a `fix` that calls itself goes round, as in docs/HOWTO.md",
    ),
    (
        &[(At::Found, "begin end")],
        "there are no blocks: `( )` group, and `let u = e1 in e2` does e1 first",
    ),
    (
        &[(At::Found, "return")],
        "a body is its value: there is no `return`",
    ),
    (
        &[(At::Found, "print println printf puts echo")],
        "nothing is shown besides the program's value, an integer: there is no `print`",
    ),
    (
        &[(At::Found, "null None none nothing undefined Some Just")],
        "there is no null: docs/HOWTO.md has nothing or a number",
    ),
    (
        &[(At::Found, "type typedef data struct")],
        "types have no names of their own: docs/HOWTO.md has a short name for a type",
    ),
    (
        &[(At::Before, "0")],
        "there are integers alone, in decimal digits: no fractions, and no other signs in a number",
    ),
    (
        &[(
            At::Found,
            "max min abs sqrt sqr square pow power len length map filter fold foldr foldl reduce range",
        )],
        "only what the text binds is there: docs/HOWTO.md has a prelude, and examples/ more",
    ),
    (
        &[(
            At::Found,
            "sum sort rev reverse succ pred even odd gcd fact factorial fib compose id append negative",
        )],
        "only what the text binds is there: docs/HOWTO.md has a prelude, and examples/ more",
    ),
    (
        &[(
            At::Found,
            "at_most smaller absolute divide quotient remainder bitwise bit empty put split",
        )],
        "only what the text binds is there: docs/HOWTO.md has a prelude, and examples/ more",
    ),
    (
        &[(
            At::Found,
            "import include require module use using package from",
        )],
        "a program is one text: nothing is imported",
    ),
    (
        &[(At::Found, "new deref get set")],
        "a cell is made by `ref e`, read by `!c` and set by `c := e`",
    ),
    (
        &[(At::Found, "unit void pass")],
        "the empty tuple is `<>`, of the type `<>`",
    ),
    (
        &[(
            At::Found,
            "raise throw try catch assert failwith error exit abort",
        )],
        "there are no exceptions: docs/HOWTO.md has nothing or a number",
    ),
    (
        &[(At::Found, "input read readline scanf getline argv args")],
        "a program reads nothing: its integers stand in its text",
    ),
    (
        &[(At::Found, "add sub mul plus minus times neg")],
        "sums, differences and products are `a + b`, `a - b`, `a * b`; the negative is `0 - x`",
    ),
    (
        &[(
            At::Found,
            "eq equal equals lt gt less leq geq greater compare",
        )],
        "a is b where `if0(a - b, yes, no)` takes yes; docs/HOWTO.md makes `less`",
    ),
    (
        &[(At::Before, "1")],
        "`2 x` is a call: a product is `2 * x`; and numbers have decimal digits alone",
    ),
];

// A type name that nothing binds.
pub(crate) static E06_ROWS: [Row; 3] = [
    (
        &[(
            At::Found,
            "Int bool unit string int64 float double char list void String Bool boolean str integer",
        )],
        "the types are `int`, `T1 -> T2`, `<T1, T2>`, `all a. T`, `some a. T` and `ref T`",
    ),
    (
        &[(At::Found, "array long u8 i32 i64 u64 forall")],
        "the types are `int`, `T1 -> T2`, `<T1, T2>`, `all a. T`, `some a. T` and `ref T`",
    ),
    (
        &[(At::Found, "a b c d t A B T alpha")],
        "a `gen` before the `fix` binds the name: `gen a. fix f(x:a):a. e`",
    ),
];

// What is called.
pub(crate) static E07_ROWS: [Row; 8] = [
    (
        &[(At::Kind, "integer"), (At::Behind, "<")],
        "a comma is missing; or a is not b where `if0(a - b, no, yes)` takes its last part",
    ),
    (
        &[(At::Told, "wanted T1 -> T2, found int"), (At::Before, ".")],
        "a `fix` is called in `( )`, as in `(fix f(x:int):int. x) 5`; and a number is not called",
    ),
    (
        &[(At::Kind, "integer")],
        "a number is not called: an argument is too much, or a comma, a sign or an `in` is missing",
    ),
    (
        &[(At::Kind, "polymorphic")],
        "this takes a type before its argument, as in `e[int] x`",
    ),
    (
        &[(At::Kind, "reference")],
        "`ref f x` is `(ref f) x`: write `ref (f x)`; and what a cell c holds is `!c`",
    ),
    (
        &[(At::Kind, "tuple")],
        "a tuple is not called: take the field that is a function, as in `(#1 e) x`",
    ),
    (
        &[(At::Kind, "package")],
        "a package is opened first: `open [a, x] = e1 in e2`",
    ),
    (
        &[(At::Kind, "variable")],
        "the type is a name, of which nothing is known: such a value is not called",
    ),
];

// An argument.
pub(crate) static E08_ROWS: [Row; 17] = [
    (
        &[(At::Told, "wanted <>, ")],
        "the function takes the empty tuple: `f <>` calls it",
    ),
    (
        &[
            (At::Told, "wanted <"),
            (At::Kind, "integer function polymorphic reference variable"),
        ],
        "the function takes one tuple: its arguments stand in `< >`, as in `f <a, b>`",
    ),
    (
        &[(At::Told, "wanted int, found <>")],
        "`<>` is the empty tuple: this function takes an integer",
    ),
    (
        &[(At::Told, "wanted int, "), (At::Kind, "tuple")],
        "the function takes one value, and not a tuple: one with two takes them as `f a b`",
    ),
    (
        &[
            (At::Told, "wanted all "),
            (At::Kind, "function integer tuple reference variable"),
        ],
        "a function for any type is wanted here: `gen a. fix f(x:a):a. e`",
    ),
    (
        &[
            (At::Told, "wanted ref "),
            (At::Kind, "integer function tuple polymorphic variable"),
        ],
        "a cell is wanted here: `ref e` makes one",
    ),
    (
        &[(At::Told, "wanted t")],
        "the name stands for a type that is not known here: only values that came with it have it",
    ),
    (
        &[(At::Told, "wanted int, "), (At::Kind, "reference")],
        "what the cell c holds is `!c`",
    ),
    (
        &[(At::Told, "wanted int, "), (At::Kind, "function")],
        "`f g x` is `(f g) x`: write `f (g x)` for f of what g gives",
    ),
    (
        &[
            (At::Told, "wanted int -> "),
            (At::Kind, "integer tuple reference"),
        ],
        "a function is wanted here: its name without an argument, or a `fix` in `( )`",
    ),
    (
        &[
            (At::Told, "wanted some "),
            (
                At::Kind,
                "integer function tuple polymorphic reference variable",
            ),
        ],
        "a package is wanted here: `pack[T, e] as some a. S`",
    ),
    (
        &[(At::Told, "wanted int"), (At::Kind, "polymorphic")],
        "this takes a type first, as in `e[int]`",
    ),
    (
        &[(At::Told, "wanted <"), (At::Kind, "polymorphic")],
        "this takes a type first, as in `e[int]`",
    ),
    (
        &[(At::Told, "wanted int"), (At::Kind, "package")],
        "a package is opened first: `open [a, x] = e1 in e2`",
    ),
    (
        &[(At::Told, "wanted <"), (At::Kind, "tuple")],
        "the fields, or their order, are not those that are wanted: a type in `[ ]` may be the cause",
    ),
    (
        &[(At::Told, "wanted ref "), (At::Kind, "reference")],
        "the cell must hold what the function's cell holds: of `ref e` that is the type of e",
    ),
    (&[(At::Kind, "reference")], "what the cell c holds is `!c`"),
];

// What takes a type.
pub(crate) static E09_ROWS: [Row; 2] = [
    (
        &[(At::Kind, "function")],
        "this takes an argument, and no type: `f x`; a `gen a. e` takes a type, `e[T]`",
    ),
    (
        &[(At::Kind, "integer tuple reference")],
        "`[ ]` gives a type to a `gen a. e`: a field of a tuple is `#1 e`",
    ),
];

// Of what a field is taken.
pub(crate) static E10_ROWS: [Row; 5] = [
    (
        &[(At::Kind, "function")],
        "`#1 f x` is `(#1 f) x`: the field of what f gives is `#1 (f x)`",
    ),
    (
        &[(At::Kind, "reference")],
        "what a cell c holds is `!c`, so its field is `#1 !c`",
    ),
    (
        &[(At::Kind, "integer")],
        "an integer has no fields; and `#1 #2 p` is field 1 of field 2 of p",
    ),
    (
        &[(At::Kind, "package")],
        "a package is opened first: `open [a, x] = e1 in e2`",
    ),
    (
        &[(At::Kind, "polymorphic")],
        "this takes a type first, as in `e[int]`",
    ),
];

// An operand.
pub(crate) static E12_ROWS: [Row; 7] = [
    (
        &[(At::Kind, "function")],
        "a function is no integer: an argument may be missing, and `f -5` is `f ~5`",
    ),
    (
        &[(At::Told, "wanted int, found <>")],
        "`<>` is no integer: behind a `c := e`, whose value it is, `let u = c := e in ..` goes on",
    ),
    (
        &[(At::Kind, "tuple")],
        "a tuple is no integer: take a field of it, as in `#1 e`",
    ),
    (
        &[(At::Kind, "reference")],
        "a cell is no integer: what the cell c holds is `!c`",
    ),
    (
        &[(At::Kind, "polymorphic")],
        "this is no integer: it takes a type first, as in `e[int]`",
    ),
    (
        &[(At::Kind, "package")],
        "a package is opened first: `open [a, x] = e1 in e2`",
    ),
    (
        &[(At::Kind, "variable")],
        "the type is a name, which need not stand for `int`: a `fix` for integers has `x:int`",
    ),
];

// A second branch.
pub(crate) static E13_ROWS: [Row; 5] = [
    (
        &[(At::Told, "wanted int, found <>")],
        "to go on behind a `c := e`, whose value is `<>`, name it: `let u = c := e in ..`",
    ),
    (
        &[(At::Told, "wanted <>, found int")],
        "to go on behind a `c := e`, whose value is `<>`, name it: `let u = c := e in ..`",
    ),
    (
        &[(At::Told, "wanted int, "), (At::Kind, "reference")],
        "what the cell c holds is `!c`",
    ),
    (
        &[(At::Told, "wanted ref "), (At::Kind, "integer")],
        "what the cell c holds is `!c`",
    ),
    (
        &[(At::Told, "wanted int, "), (At::Kind, "function")],
        "an argument may be missing: this branch is a function, and the first an integer",
    ),
];

// A body.
pub(crate) static E14_ROWS: [Row; 4] = [
    (
        &[(At::Told, "wanted int, found <>")],
        "to go on behind a `c := e`, whose value is `<>`, name it: `let u = c := e in ..`",
    ),
    (
        &[(At::Told, "wanted int, "), (At::Kind, "function")],
        "the body is a function: an argument is missing in it, or `T1 -> T2` before the dot",
    ),
    (
        &[(At::Told, "wanted int, "), (At::Kind, "reference")],
        "what the cell c holds is `!c`",
    ),
    (
        &[(At::Told, "wanted int, "), (At::Kind, "tuple")],
        "take a field of the tuple, as in `#1 e`; or its type stands before the dot",
    ),
];

// The whole.
pub(crate) static E15_ROWS: [Row; 5] = [
    (
        &[(At::Kind, "function")],
        "a program's value is an integer: this is a function, so an argument may be missing",
    ),
    (
        &[(At::Kind, "tuple")],
        "a program's value is an integer: take a field of the tuple, or go on behind it",
    ),
    (
        &[(At::Kind, "reference")],
        "a program's value is an integer: what the cell c holds is `!c`",
    ),
    (
        &[(At::Kind, "polymorphic")],
        "a program's value is an integer: this takes a type first, as in `e[int] x`",
    ),
    (
        &[(At::Kind, "package")],
        "a program's value is an integer: open the package, `open [a, x] = e1 in e2`",
    ),
];

// What is read or assigned.
pub(crate) static E21_ROWS: [Row; 7] = [
    (
        &[(At::Told, "wanted ref T, found <>")],
        "a `c := e` has the value `<>`: to read the cell behind it, `let u = c := e in !c`",
    ),
    (
        &[
            (At::Inside, "if0"),
            (At::Before, "!"),
            (At::Kind, "integer"),
        ],
        "`!c` is what a cell holds, and no `not`: swap the last two parts of the `if0`",
    ),
    (
        &[(At::Kind, "function")],
        "`! f x` is `(! f) x`: what the cell that f gives holds is `! (f x)`",
    ),
    (
        &[(At::Kind, "integer"), (At::Behind, ":=")],
        "what is set is a cell, made by `ref e`, and has no `!` before it: `c := e`",
    ),
    (
        &[(At::Kind, "integer")],
        "a cell is made by `ref e`, and bound as any value: `let c = ref 0 in ..`",
    ),
    (
        &[(At::Kind, "tuple")],
        "a tuple is no cell: a cell in its first field is read by `! #1 e`",
    ),
    (
        &[(At::Kind, "polymorphic")],
        "this takes a type first, as in `e[int]`",
    ),
];
