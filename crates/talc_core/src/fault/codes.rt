// The codes of faults and their words.
ghost use Rattle.std.specs.Prelude.{◌≡◌};
ghost use Rattle.talc_core.specs.Lines.{source_code, source_words, tal_code, tal_words};

use f_terms::Code;
use t_terms::TCode;

pub(crate) fn source_code(code: Code) -> &'static str
    ensures { result.now ≡ source_code code }
{
    match code {
        Code::E01 => "E01",
        Code::E02 => "E02",
        Code::E03 => "E03",
        Code::E04 => "E04",
        Code::E05 => "E05",
        Code::E06 => "E06",
        Code::E07 => "E07",
        Code::E08 => "E08",
        Code::E09 => "E09",
        Code::E10 => "E10",
        Code::E11 => "E11",
        Code::E12 => "E12",
        Code::E13 => "E13",
        Code::E14 => "E14",
        Code::E15 => "E15",
        Code::E16 => "E16",
        Code::E17 => "E17",
        Code::E18 => "E18",
        Code::E19 => "E19",
        Code::E21 => "E21",
        Code::E22 => "E22",
        Code::L1 => "L1",
        Code::L2 => "L2",
        Code::L3 => "L3",
        Code::L4 => "L4",
        Code::L5 => "L5",
    }
}

pub(crate) fn source_words(code: Code) -> &'static str
    ensures { result.now ≡ source_words code }
{
    match code {
        Code::E01 => "byte begins no token",
        Code::E02 => "number out of range",
        Code::E03 => "unexpected token",
        Code::E04 => "unexpected end of text",
        Code::E05 => "unbound name",
        Code::E06 => "unbound type name",
        Code::E07 => "not a function",
        Code::E08 => "argument of another type",
        Code::E09 => "not polymorphic",
        Code::E10 => "not a tuple",
        Code::E11 => "no such field",
        Code::E12 => "operand is not int",
        Code::E13 => "branches of two types",
        Code::E14 => "body not of the declared type",
        Code::E15 => "program is not int",
        Code::E16 => "not an existential",
        Code::E17 => "pack does not fit",
        Code::E18 => "hidden type escapes",
        Code::E19 => "cells are not evaluated",
        Code::E21 => "not a reference",
        Code::E22 => "assigned value of another type",
        Code::L1 => "more than 16777216 bytes",
        Code::L2 => "more than 200 open constructs",
        Code::L3 => "more than 100000 nodes",
        Code::L4 => "type deeper than 200",
        Code::L5 => "type of more than 10000 nodes",
    }
}

pub(crate) fn tal_code(code: TCode) -> &'static str
    ensures { result.now ≡ tal_code code }
{
    match code {
        TCode::T01 => "T01",
        TCode::T02 => "T02",
        TCode::T03 => "T03",
        TCode::T04 => "T04",
        TCode::T05 => "T05",
        TCode::T06 => "T06",
        TCode::T07 => "T07",
        TCode::T08 => "T08",
        TCode::T09 => "T09",
        TCode::T10 => "T10",
        TCode::T11 => "T11",
        TCode::T12 => "T12",
        TCode::T13 => "T13",
        TCode::T14 => "T14",
        TCode::T15 => "T15",
        TCode::T16 => "T16",
        TCode::T17 => "T17",
        TCode::T18 => "T18",
        TCode::T19 => "T19",
        TCode::T20 => "T20",
        TCode::M1 => "M1",
    }
}

pub(crate) fn tal_words(code: TCode) -> &'static str
    ensures { result.now ≡ tal_words code }
{
    match code {
        TCode::T01 => "byte begins no token",
        TCode::T02 => "number out of range",
        TCode::T03 => "unexpected token or end",
        TCode::T04 => "duplicate label",
        TCode::T05 => "unknown label",
        TCode::T06 => "unbound type name",
        TCode::T07 => "register twice in one file type",
        TCode::T08 => "register without a type",
        TCode::T09 => "not int",
        TCode::T10 => "not a tuple",
        TCode::T11 => "no such field",
        TCode::T12 => "field not initialised",
        TCode::T13 => "stored value of another type",
        TCode::T14 => "not an existential",
        TCode::T15 => "pack does not fit",
        TCode::T16 => "target is not code without types owed",
        TCode::T17 => "too many type arguments",
        TCode::T18 => "registers do not fit",
        TCode::T19 => "r1 is not int at halt",
        TCode::T20 => "first block takes something",
        TCode::M1 => "more than 2000 open constructs",
    }
}
