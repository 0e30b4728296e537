// The kinds of tokens of assembly texts, and the words for them.

use t_text::Kind;

// One of each kind, most specific first, with a wider kind that stands for it where that can stand, too, and the words
// for it: first what closes a form or stands between its parts, then what ends a block, what opens a form, numbers of
// one value, and last what begins a type, a value or an instruction.
pub(crate) static KINDS: [(Kind, Option<Kind>, &'static str); 36] = [
    (Kind::As, None, "as"),
    (Kind::Code, None, "code"),
    (Kind::Data, None, "data"),
    (Kind::RightBracket, None, "]"),
    (Kind::RightBrace, None, "}"),
    (Kind::RightAngle, None, ">"),
    (Kind::Comma, None, ","),
    (Kind::Dot, None, "."),
    (Kind::Colon, None, ":"),
    (Kind::Caret, None, "^"),
    (Kind::Jmp, None, "jmp"),
    (Kind::Halt, None, "halt"),
    (Kind::LeftBracket, None, "["),
    (Kind::LeftBrace, None, "{"),
    (Kind::Tal, None, "tal"),
    (Kind::Plain(0), Some(Kind::Plain(3)), "0"),
    (Kind::Plain(1), Some(Kind::Plain(3)), "1"),
    (Kind::Plain(2), Some(Kind::Plain(3)), "2"),
    (Kind::Register(1), None, "a register"),
    (Kind::Name, None, "a name"),
    (Kind::Plain(3), None, "a number"),
    (Kind::Negative(-1), None, "~1"),
    (Kind::Int, None, "int"),
    (Kind::All, None, "all"),
    (Kind::Some, None, "some"),
    (Kind::LeftAngle, None, "<"),
    (Kind::Pack, None, "pack"),
    (Kind::Add, None, "add"),
    (Kind::Sub, None, "sub"),
    (Kind::Mul, None, "mul"),
    (Kind::Bnz, None, "bnz"),
    (Kind::Ld, None, "ld"),
    (Kind::St, None, "st"),
    (Kind::Mov, None, "mov"),
    (Kind::Malloc, None, "malloc"),
    (Kind::Unpack, None, "unpack"),
];
