// The numbers of the codes.
ghost use Rattle.std.specs.Prelude.{◌≡◌};
ghost use Rattle.talc_c.specs.Answers.{source_number, tal_number, code_number};

use f_terms::Code;
use t_terms::TCode;
use talc_core::Fault;

fn source_number(code: Code) -> u32
    ensures { result ≡ source_number code }
{
    match code {
        Code::E01 => 301,
        Code::E02 => 302,
        Code::E03 => 303,
        Code::E04 => 304,
        Code::E05 => 305,
        Code::E06 => 306,
        Code::E07 => 307,
        Code::E08 => 308,
        Code::E09 => 309,
        Code::E10 => 310,
        Code::E11 => 311,
        Code::E12 => 312,
        Code::E13 => 313,
        Code::E14 => 314,
        Code::E15 => 315,
        Code::E16 => 316,
        Code::E17 => 317,
        Code::E18 => 318,
        Code::E19 => 319,
        Code::E21 => 321,
        Code::E22 => 322,
        Code::L1 => 401,
        Code::L2 => 402,
        Code::L3 => 403,
        Code::L4 => 404,
        Code::L5 => 405,
    }
}

fn tal_number(code: TCode) -> u32
    ensures { result ≡ tal_number code }
{
    match code {
        TCode::T01 => 101,
        TCode::T02 => 102,
        TCode::T03 => 103,
        TCode::T04 => 104,
        TCode::T05 => 105,
        TCode::T06 => 106,
        TCode::T07 => 107,
        TCode::T08 => 108,
        TCode::T09 => 109,
        TCode::T10 => 110,
        TCode::T11 => 111,
        TCode::T12 => 112,
        TCode::T13 => 113,
        TCode::T14 => 114,
        TCode::T15 => 115,
        TCode::T16 => 116,
        TCode::T17 => 117,
        TCode::T18 => 118,
        TCode::T19 => 119,
        TCode::T20 => 120,
        TCode::M1 => 201,
    }
}

/// The number of a fault's code.
pub(crate) fn code_number(fault: Fault) -> u32
    ensures { result ≡ code_number fault }
{
    match fault {
        Fault::Source(code, _) => source_number(code),
        Fault::Tal(code, _) => tal_number(code),
    }
}
