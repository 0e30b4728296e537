// A sentence for each code of a fault.
ghost use Rattle.std.specs.Prelude.{◌≡◌};
ghost use Rattle.talc_faults.specs.Sentences.{source_sentence, tal_sentence};

use f_terms::Code;
use t_terms::TCode;

pub(crate) fn source_sentence(code: Code) -> &'static str
    ensures { result.now ≡ source_sentence code }
{
    match code {
        Code::E01 => "no token begins with it here; `--` begins a comment, and digits follow a `~`",
        Code::E02 => "numbers go from ~9223372036854775808 to 9223372036854775807",
        Code::E03 => {
            "no program goes on with this token here: something before it is missing, or it is too much"
        }
        Code::E04 => "the text ends too early: an expression, a type or a closing sign is missing",
        Code::E05 => "no `fix`, `let` or `open` around it binds this name",
        Code::E06 => "no `gen`, `open`, `all` or `some` around it binds this type name",
        Code::E07 => "what is called must be a function, of a type `T1 -> T2`",
        Code::E08 => "the argument must have the type on the left of the function's `->`",
        Code::E09 => "what takes a type in `[ ]` must have a type `all a. T`, as a `gen` has",
        Code::E10 => "`#` takes a field of a tuple: this must have a type `<T1, .., Tn>`",
        Code::E11 => "fields are counted from 1 on, and the tuple has none of this number",
        Code::E12 => {
            "`+`, `-`, `*` and the test of an `if0` take integers: this must have the type `int`"
        }
        Code::E13 => {
            "both branches of an `if0` must have one type, and this one has another than the first"
        }
        Code::E14 => "the body of the `fix` must have the type that is declared before its dot",
        Code::E15 => "the value of a program is an integer: the whole must have the type `int`",
        Code::E16 => "the type after `as`, and that of what is opened, must be a `some a. T`",
        Code::E17 => "this must have the type in the `some`, with the hidden type put for its name",
        Code::E18 => {
            "the hidden type has no name outside of the `open`: this part must have another type"
        }
        Code::E19 => "`eval` has no cells: `compile` the program, and `run` what is written",
        Code::E21 => "what is read by `!` or assigned to by `:=` must be a cell, of a type `ref T`",
        Code::E22 => "in a cell of a type `ref T` only values of the type T can be put",
        Code::L1 => "a source has at most 16777216 bytes, comments and spaces counted",
        Code::L2 => {
            "at most 200 constructs can be open at a token: name parts by a `let`, which its `in` closes"
        }
        Code::L3 => {
            "a program has at most 100000 nodes: a part that is needed twice can be named by a `let`"
        }
        Code::L4 => "types can be nested 200 deep, also those that are not written down",
        Code::L5 => "types can have 10000 nodes, also those that are not written down",
    }
}

pub(crate) fn tal_sentence(code: TCode) -> &'static str
    ensures { result.now ≡ tal_sentence code }
{
    match code {
        TCode::T01 => {
            "no token begins with it here; `--` begins a comment, and digits follow a `~`"
        }
        TCode::T02 => {
            "numbers go from ~9223372036854775808 to 9223372036854775807, registers from r1 on"
        }
        TCode::T03 => {
            "no program goes on so here: a token is missing or too much, or the version has it not"
        }
        TCode::T04 => "each block and each data tuple must have a label of its own",
        TCode::T05 => "no block and no data tuple of the text has this label",
        TCode::T06 => "no `code`, `all`, `some` or `unpack` binds this type name here",
        TCode::T07 => "in one `{ }` each register can stand once",
        TCode::T08 => {
            "nothing is known of a register here: set it before, or name it in the header of the block"
        }
        TCode::T09 => {
            "`add`, `sub`, `mul` and the test of a `bnz` take integers: the type must be `int`"
        }
        TCode::T10 => "`ld` and `st` take a field of a tuple: the register must hold one",
        TCode::T11 => "fields are counted from 0 on, and the tuple has none of this number",
        TCode::T12 => {
            "the flag of the field is 0: first store a value into it, by this very register"
        }
        TCode::T13 => "what is stored must have a type that fits the type of the field",
        TCode::T14 => "what is unpacked must be a package, of a type `some a. T`",
        TCode::T15 => {
            "what is packed must fit the type in the `some`, with the hidden type put for its name"
        }
        TCode::T16 => "what is entered must be code, with all types that it owes given in `[ ]`",
        TCode::T17 => "in `[ ]` can stand no more types than the value before it owes",
        TCode::T18 => {
            "each register that the target asks for must be known here, with a type that fits"
        }
        TCode::T19 => {
            "the result is what r1 holds at `halt[int]`: it must be known, and have the type `int`"
        }
        TCode::T20 => "the first block is entered with nothing, so its header must be `code[]{}`",
        TCode::M1 => "at most 2000 brackets and `some` can be open at a token",
    }
}
