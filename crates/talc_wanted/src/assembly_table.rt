// The table of the assembly grammar: what its lines owe after a first token of a kind.

use crate::{Row, Sym};
use t_text::{Kind, Wanted};

/// The lines of the grammar, what stands in brackets of its forms, and what may follow on a part.
#[derive(Clone, Copy, PartialEq, Eq)]
pub(crate) enum Line {
    Program,
    Header,
    Block,
    MoreBlocks,
    SomeItems,
    First,
    MoreItems,
    Item,
    Tuple,
    Datums,
    MoreDatums,
    Binds,
    Names,
    MoreNames,
    File,
    Regs,
    MoreRegs,
    Type,
    Fields,
    MoreFields,
    Types,
    TypeList,
    SomeTypes,
    MoreTypes,
    Value,
    Args,
    Packed,
    Word,
    WordArgs,
    WordPacked,
    To,
    At,
    Index,
    Target,
    IntOnly,
    Instr,
    MoreSteps,
    End,
}

type Owed = Sym<Wanted, Line>;

const NAME: Owed = Sym::Token(Wanted::Name);

const REGISTER: Owed = Sym::Token(Wanted::Register);

const NUMBER: Owed = Sym::Token(Wanted::Number);

const FLAG: Owed = Sym::Token(Wanted::Flag);

const CLOSE_BRACKET: Owed = Sym::Token(Wanted::RightBracket);

const CLOSE_BRACE: Owed = Sym::Token(Wanted::RightBrace);

const CLOSE_ANGLE: Owed = Sym::Token(Wanted::RightAngle);

const COMMA: Owed = Sym::Token(Wanted::Comma);

const DOT: Owed = Sym::Token(Wanted::Dot);

const COLON: Owed = Sym::Token(Wanted::Colon);

const CARET: Owed = Sym::Token(Wanted::Caret);

const CODE: Owed = Sym::Token(Wanted::Code);

const AS: Owed = Sym::Token(Wanted::As);

const INT: Owed = Sym::Token(Wanted::Int);

const HEADER: Owed = Sym::Line(Line::Header);

const BLOCK: Owed = Sym::Line(Line::Block);

const MORE_BLOCKS: Owed = Sym::Line(Line::MoreBlocks);

const SOME_ITEMS: Owed = Sym::Line(Line::SomeItems);

const FIRST: Owed = Sym::Line(Line::First);

const MORE_ITEMS: Owed = Sym::Line(Line::MoreItems);

const ITEM: Owed = Sym::Line(Line::Item);

const TUPLE: Owed = Sym::Line(Line::Tuple);

const DATUMS: Owed = Sym::Line(Line::Datums);

const MORE_DATUMS: Owed = Sym::Line(Line::MoreDatums);

const BINDS: Owed = Sym::Line(Line::Binds);

const NAMES: Owed = Sym::Line(Line::Names);

const MORE_NAMES: Owed = Sym::Line(Line::MoreNames);

const FILE: Owed = Sym::Line(Line::File);

const REGS: Owed = Sym::Line(Line::Regs);

const MORE_REGS: Owed = Sym::Line(Line::MoreRegs);

const TYPE: Owed = Sym::Line(Line::Type);

const FIELDS: Owed = Sym::Line(Line::Fields);

const MORE_FIELDS: Owed = Sym::Line(Line::MoreFields);

const TYPES: Owed = Sym::Line(Line::Types);

const TYPE_LIST: Owed = Sym::Line(Line::TypeList);

const SOME_TYPES: Owed = Sym::Line(Line::SomeTypes);

const MORE_TYPES: Owed = Sym::Line(Line::MoreTypes);

const VALUE: Owed = Sym::Line(Line::Value);

const ARGS: Owed = Sym::Line(Line::Args);

const PACKED: Owed = Sym::Line(Line::Packed);

const WORD: Owed = Sym::Line(Line::Word);

const WORD_ARGS: Owed = Sym::Line(Line::WordArgs);

const WORD_PACKED: Owed = Sym::Line(Line::WordPacked);

const TO: Owed = Sym::Line(Line::To);

const AT: Owed = Sym::Line(Line::At);

const INDEX: Owed = Sym::Line(Line::Index);

const TARGET: Owed = Sym::Line(Line::Target);

const INT_ONLY: Owed = Sym::Line(Line::IntOnly);

const MORE_STEPS: Owed = Sym::Line(Line::MoreSteps);

const END: Owed = Sym::Line(Line::End);

// Of lines and first tokens, what is owed after these, the next last. The number 3 stands for all numbers, and so do -1
// for all negative ones and a register for all registers.
pub(crate) static ROWS: [Row<Kind, Wanted, Line>; 60] = [
    (Line::Program, Kind::Tal, &[HEADER]),
    (Line::Header, Kind::Plain(1), &[MORE_BLOCKS, BLOCK]),
    (Line::Header, Kind::Plain(2), &[SOME_ITEMS]),
    (
        Line::Block,
        Kind::Name,
        &[END, MORE_STEPS, DOT, FILE, BINDS, CODE, COLON],
    ),
    (Line::SomeItems, Kind::Name, &[FIRST, COLON]),
    (
        Line::First,
        Kind::Code,
        &[MORE_ITEMS, END, MORE_STEPS, DOT, FILE, BINDS],
    ),
    (Line::First, Kind::Data, &[SOME_ITEMS, TUPLE]),
    (Line::MoreItems, Kind::Name, &[MORE_ITEMS, ITEM, COLON]),
    (Line::Item, Kind::Code, &[END, MORE_STEPS, DOT, FILE, BINDS]),
    (Line::Item, Kind::Data, &[TUPLE]),
    (Line::Tuple, Kind::LeftAngle, &[DATUMS]),
    (Line::Datums, Kind::RightAngle, &[]),
    (
        Line::MoreDatums,
        Kind::Comma,
        &[MORE_DATUMS, TYPE, COLON, WORD],
    ),
    (Line::Binds, Kind::LeftBracket, &[NAMES]),
    (Line::Names, Kind::RightBracket, &[]),
    (Line::Names, Kind::Name, &[CLOSE_BRACKET, MORE_NAMES]),
    (Line::MoreNames, Kind::Comma, &[MORE_NAMES, NAME]),
    (Line::File, Kind::LeftBrace, &[REGS]),
    (Line::Regs, Kind::RightBrace, &[]),
    (
        Line::Regs,
        Kind::Register(1),
        &[CLOSE_BRACE, MORE_REGS, TYPE, COLON],
    ),
    (
        Line::MoreRegs,
        Kind::Comma,
        &[MORE_REGS, TYPE, COLON, REGISTER],
    ),
    (Line::Type, Kind::Int, &[]),
    (Line::Type, Kind::Name, &[]),
    (Line::Type, Kind::All, &[FILE, BINDS]),
    (Line::Type, Kind::Some, &[TYPE, DOT, NAME]),
    (Line::Type, Kind::LeftAngle, &[FIELDS]),
    (Line::Fields, Kind::RightAngle, &[]),
    (
        Line::MoreFields,
        Kind::Comma,
        &[MORE_FIELDS, FLAG, CARET, TYPE],
    ),
    (Line::Types, Kind::LeftBracket, &[TYPE_LIST]),
    (Line::TypeList, Kind::RightBracket, &[]),
    (Line::MoreTypes, Kind::Comma, &[MORE_TYPES, TYPE]),
    (Line::Value, Kind::Register(1), &[ARGS]),
    (Line::Value, Kind::Plain(3), &[ARGS]),
    (Line::Value, Kind::Negative(-1), &[ARGS]),
    (Line::Value, Kind::Name, &[ARGS]),
    (Line::Value, Kind::Pack, &[TYPE, AS, PACKED]),
    (Line::Args, Kind::LeftBracket, &[SOME_TYPES]),
    (
        Line::Packed,
        Kind::LeftBracket,
        &[CLOSE_BRACKET, VALUE, COMMA, TYPE],
    ),
    (Line::Word, Kind::Plain(3), &[WORD_ARGS]),
    (Line::Word, Kind::Negative(-1), &[WORD_ARGS]),
    (Line::Word, Kind::Name, &[WORD_ARGS]),
    (Line::Word, Kind::Pack, &[TYPE, AS, WORD_PACKED]),
    (Line::WordArgs, Kind::LeftBracket, &[SOME_TYPES]),
    (
        Line::WordPacked,
        Kind::LeftBracket,
        &[CLOSE_BRACKET, WORD, COMMA, TYPE],
    ),
    (Line::To, Kind::Register(1), &[COMMA]),
    (Line::At, Kind::Register(1), &[INDEX]),
    (Line::Index, Kind::LeftBracket, &[CLOSE_BRACKET, NUMBER]),
    (
        Line::Target,
        Kind::LeftBracket,
        &[CLOSE_BRACKET, REGISTER, COMMA, NAME],
    ),
    (Line::IntOnly, Kind::LeftBracket, &[CLOSE_BRACKET, INT]),
    (Line::Instr, Kind::Add, &[VALUE, TO, TO]),
    (Line::Instr, Kind::Sub, &[VALUE, TO, TO]),
    (Line::Instr, Kind::Mul, &[VALUE, TO, TO]),
    (Line::Instr, Kind::Bnz, &[VALUE, TO]),
    (Line::Instr, Kind::Ld, &[AT, TO]),
    (Line::Instr, Kind::Malloc, &[TYPES, REGISTER]),
    (Line::Instr, Kind::Mov, &[VALUE, TO]),
    (Line::Instr, Kind::St, &[REGISTER, COMMA, AT]),
    (Line::Instr, Kind::Unpack, &[VALUE, COMMA, TARGET]),
    (Line::End, Kind::Jmp, &[VALUE]),
    (Line::End, Kind::Halt, &[INT_ONLY]),
];

// The lines that go on, after their own rows, as another does, and what they owe after it.
pub(crate) static OTHERS: [Row<Line, Wanted, Line>; 6] = [
    (Line::MoreBlocks, Line::Block, &[MORE_BLOCKS]),
    (
        Line::Datums,
        Line::Word,
        &[CLOSE_ANGLE, MORE_DATUMS, TYPE, COLON],
    ),
    (
        Line::Fields,
        Line::Type,
        &[CLOSE_ANGLE, MORE_FIELDS, FLAG, CARET],
    ),
    (Line::TypeList, Line::Type, &[CLOSE_BRACKET, MORE_TYPES]),
    (Line::SomeTypes, Line::Type, &[CLOSE_BRACKET, MORE_TYPES]),
    (Line::MoreSteps, Line::Instr, &[MORE_STEPS]),
];

// The lines that may be of no tokens.
pub(crate) static ENDS: [Line; 10] = [
    Line::MoreBlocks,
    Line::MoreItems,
    Line::MoreDatums,
    Line::MoreNames,
    Line::MoreRegs,
    Line::MoreFields,
    Line::MoreTypes,
    Line::Args,
    Line::WordArgs,
    Line::MoreSteps,
];
