// The rows of hints for faults of an assembly text.

use crate::choice::{At, Row};

// A byte that begins no token.
pub(crate) static T01_ROWS: [Row; 13] = [
    (
        &[(At::Found, ";"), (At::Inside, "{ [ <")],
        "commas stand between types: `{r1: int, r2: int}`",
    ),
    (
        &[(At::Found, "="), (At::Inside, "{")],
        "in a header a `:` stands between a register and its type: `{r1: int}`",
    ),
    (
        &[(At::Found, "=")],
        "a register is set by `mov r1, 5`, and loaded by `ld r1, r2[0]`",
    ),
    (
        &[(At::Found, "("), (At::Earlier, "malloc")],
        "a tuple is made by `malloc r1[int, int]`, with the types of its fields",
    ),
    (
        &[(At::Found, "(")],
        "a field is loaded by `ld r1, r2[0]`, and stored by `st r1[0], r2`",
    ),
    (
        &[(At::Found, "\" '")],
        "there are no texts: words are integers, tuples and code",
    ),
    (
        &[(At::Found, "& @ *")],
        "an operand is one register, number or label, with no sign before it",
    ),
    (
        &[(At::Found, "; /")],
        "a comment begins with `--`, and nothing stands between two instructions",
    ),
    (
        &[(At::Found, "-")],
        "a negative number is written with `~`, as `~5`",
    ),
    (
        &[
            (At::Before, "} . ] $ 1"),
            (At::Found, "#"),
            (At::Behind, "@"),
        ],
        "a comment begins with `--` and goes to the line's end",
    ),
    (
        &[(At::Before, "1 ] ."), (At::Found, "$ _")],
        "a label begins with a letter, and has letters, digits and `_`",
    ),
    (
        &[(At::Found, "# $ %")],
        "a register is `r1`, and a number is written as it is: `mov r1, 5`",
    ),
    (
        &[(At::Found, "+ *")],
        "an operand is one register, number or label: `add` makes sums, and `ld r1, r2[0]` loads",
    ),
];

// A token that no program has there, or the end: the narrow ones, which come first.
pub(crate) static T03_FIRST: [Row; 25] = [
    (
        &[(At::Inside, "["), (At::Found, "^")],
        "flags are of fields of types: a `malloc` has none, as in `malloc r1[int]`",
    ),
    (
        &[(At::Told, "wanted one of: a name; "), (At::Earlier, "tal")],
        "a block begins with its label and its header: `l: code[]{r1: int}.`",
    ),
    (
        &[
            (At::Told, "wanted one of: ] a name int"),
            (At::Before, "["),
            (At::Found, "1 ~"),
        ],
        "a tuple is made by `malloc r1[int, int]`, with the types of its fields",
    ),
    (
        &[(At::Told, "wanted one of: ,; "), (At::Inside, "[")],
        "a package is opened by `unpack [a, r1], r2`",
    ),
    (
        &[(At::Told, "wanted one of: ,; ")],
        "operands have commas between: `mov r1, 5`, `add r1, r2, 3`, `bnz r1, l`",
    ),
    (
        &[(At::Told, "wanted one of: [; "), (At::Before, "all")],
        "the type of code is `all[]{r1: int}`",
    ),
    (
        &[(At::Told, "wanted one of: [; "), (At::Before, "unpack")],
        "a package is opened by `unpack [a, r1], r2`",
    ),
    (
        &[(At::Told, "wanted one of: [; "), (At::Before, "pack")],
        "a package is `pack[T, v] as some a. S`, with the type that it then has",
    ),
    (
        &[(At::Told, "wanted one of: [; "), (At::Earlier, ",")],
        "a field is loaded by `ld r1, r2[0]`",
    ),
    (
        &[(At::Inside, "<"), (At::Earlier, "data")],
        "a data tuple has its values with their types: `l: data <5 : int, 6 : int>`",
    ),
    (
        &[(At::Before, "data")],
        "a data tuple has its values with their types: `l: data <5 : int, 6 : int>`",
    ),
    (
        &[(At::Told, "wanted one of: :; "), (At::Found, "code data")],
        "behind a label stands a `:`, as in `l: code[]{r1: int}.`",
    ),
    (
        &[(At::Told, "wanted one of: } ,")],
        "registers of a header have commas between: `{r1: int, r2: int}`",
    ),
    (
        &[(At::Told, "wanted one of: {; ")],
        "a header has the registers that the block wants, or `{}`: `l: code[]{r1: int}.`",
    ),
    (
        &[(At::Told, "wanted one of: the end"), (At::Found, ":")],
        "a `jmp` before it has no target: `jmp l`",
    ),
    (
        &[(At::Before, ","), (At::Found, "] > }")],
        "a part is missing behind the comma, or the comma is too much",
    ),
    (
        &[(At::Told, "wanted one of: the end"), (At::Found, ",")],
        "nothing stands behind a `jmp` or a `halt[int]`: the target finds all registers as they are",
    ),
    (
        &[(At::Before, "bnz"), (At::Found, "@")],
        "the register stands first, and then what is entered: `bnz r1, l`",
    ),
    (
        &[
            (At::Told, "wanted one of: the end"),
            (At::Found, "@"),
            (At::Before, "]"),
        ],
        "behind a `halt[int]` or a `jmp` stands nothing but the next label",
    ),
    (
        &[(At::Before, "mov ld add sub mul"), (At::Found, "1 ~")],
        "the register that is set stands first: `mov r1, 5`",
    ),
    (
        &[
            (At::Before, ","),
            (At::Found, "add sub mul ld mov malloc unpack"),
        ],
        "an operand is one register, number or label: each instruction stands by itself",
    ),
    (
        &[(At::Before, "1"), (At::Found, ".")],
        "numbers are integers in decimal digits: there are no fractions",
    ),
    (
        &[(At::Before, "jmp ,"), (At::Found, ".")],
        "a label begins with a letter, and has letters, digits and `_`",
    ),
    (
        &[
            (At::Told, "wanted one of: a register; "),
            (At::Before, ","),
            (At::Found, "@"),
        ],
        "a register stands here, `r1`, `r2` and so on: a label is put into one by `mov r1, l`",
    ),
    (
        &[(At::Told, "wanted one of: a register; "), (At::Found, "@")],
        "a register stands here: `r1`, `r2` and so on",
    ),
];

// Where none of those applies.
pub(crate) static T03_ROWS: [Row; 31] = [
    (
        &[(At::Before, "halt")],
        "the result of a program has a type: `halt[int]`",
    ),
    (
        &[(At::Told, "wanted one of: int; "), (At::Earlier, "halt")],
        "the end of a program is `halt[int]`",
    ),
    (
        &[(At::Before, "tal")],
        "a text begins with `tal 1`, or with `tal 2` where it has data",
    ),
    (
        &[(At::Found, "$")],
        "the text ends too early: a block ends with `jmp` or `halt[int]`",
    ),
    (
        &[(At::Before, "@ ,"), (At::Found, "1 ~")],
        "a register stands here: put the number into one before, by `mov r1, 5`",
    ),
    (
        &[(At::Before, "["), (At::Found, "1 ~")],
        "behind a value stand types in `[ ]`: a field is loaded by `ld r1, r2[0]`",
    ),
    (
        &[(At::Found, "code"), (At::Inside, "[ { <")],
        "`code` begins a block: the type of code is `all[..]{..}`",
    ),
    (
        &[(At::Found, "code")],
        "a block begins with its label and its header: `l: code[]{r1: int}.`",
    ),
    (
        &[
            (
                At::Found,
                "add sub mul mov ld st bnz jmp halt malloc unpack pack data as all some ref int",
            ),
            (At::Behind, ":"),
        ],
        "the word is one of the language's own: take another label",
    ),
    (
        &[(At::Before, "@ 1 ]"), (At::Found, "@"), (At::Behind, ":")],
        "a block ends with `jmp` or `halt[int]`, before the next label",
    ),
    (
        &[(At::Told, "wanted one of: .; ")],
        "a header ends with a dot: `l: code[]{r1: int}.`",
    ),
    (
        &[(At::Told, "wanted one of: :; "), (At::Found, ". - $")],
        "a label has letters, digits and `_`, and a `:` behind it",
    ),
    (
        &[(At::Told, "wanted one of: :; "), (At::Inside, "{")],
        "in a header each register has its type: `{r1: int}`",
    ),
    (
        &[(At::Told, "wanted one of: code data")],
        "a block begins with its header: `l: code[]{r1: int}.`",
    ),
    (
        &[(At::Told, "wanted one of: [; "), (At::Before, "code")],
        "a block begins with its header: `l: code[]{r1: int}.`",
    ),
    (
        &[(At::Found, "div rem mod idiv")],
        "there is no division: docs/HOWTO.md makes one by `add`, `sub` and `mul`",
    ),
    (
        &[(At::Found, "goto b j jump br bra")],
        "a jump is `jmp l`, and the one test `bnz r1, l`",
    ),
    (
        &[(
            At::Found,
            "bz blt beq cmp bgt bge ble bne jz jnz je jne jg jl beqz bnez test",
        )],
        "the one test is `bnz r1, l`: it jumps where the register is not 0",
    ),
    (
        &[(At::Found, "exit end stop quit hlt")],
        "the end of a program is `halt[int]`",
    ),
    (
        &[(At::Found, "call ret return")],
        "there are no calls: what goes on stands in a register (docs/TARGETING.md)",
    ),
    (
        &[(At::Told, "wanted one of: [; "), (At::Earlier, "malloc")],
        "a tuple is made by `malloc r1[int, int]`, with the types of its fields",
    ),
    (
        &[(At::Before, "0"), (At::Found, "@")],
        "numbers are written in decimal digits alone",
    ),
    (
        &[(At::Before, "["), (At::Found, "@")],
        "a field is a number: no register counts fields",
    ),
    (
        &[(At::Told, "wanted one of: as")],
        "a package is `pack[T, v] as some a. S`, with the type that it then has",
    ),
    (
        &[(At::Told, "wanted one of: 0 1")],
        "a flag is 0 or 1: `<int^1>` has a field that is set",
    ),
    (
        &[(At::Before, ","), (At::Found, "[")],
        "a field is loaded by `ld r1, r2[0]` and stored by `st r1[0], r2`",
    ),
    (
        &[(At::Told, "wanted one of: jmp halt"), (At::Found, ",")],
        "nothing stands behind an instruction: the next one begins without a comma",
    ),
    (
        &[(At::Inside, "<"), (At::Found, ", >")],
        "fields of types have flags, `<int^1>`, those of data types, `<5 : int>`; a store is `st r1[0], r2`",
    ),
    (
        &[(At::Earlier, "st"), (At::Found, ",")],
        "a store is `st r1[0], r2`",
    ),
    (
        &[(At::Found, ", >")],
        "fields of types have flags, `<int^1>`, those of data types, `<5 : int>`; a store is `st r1[0], r2`",
    ),
    (
        &[(At::Told, "wanted one of: jmp halt"), (At::Found, "@")],
        "this word begins no instruction: the line above has all words that do",
    ),
];

// A label that nothing has.
pub(crate) static T05_ROWS: [Row; 1] = [(
    &[(
        At::Found,
        "R1 R2 R3 R4 R5 R6 R7 R8 R9 eax ebx ecx edx rax rbx rcx a0 a1 t0 t1 x0 x1 sp",
    )],
    "registers are `r1`, `r2` and so on; all other names are labels",
)];

// The first block.
pub(crate) static T20_ROWS: [Row; 1] = [(
    &[],
    "the program begins at its first block, with a header `code[]{}`: put such a block first",
)];
