// A program, as words of 64 bits alone: after a part of a word a hasher goes byte by byte.
use idx_core::{Op, Salt};
use std::hash::{DefaultHasher, Hasher};
use t_terms::{Base, Block, Data, End, Instr, TProgram, Value};
use t_types::{RegFile, TType};

// What is below it takes 18 bits.
const SMALL: u64 = 262144;

/// What the hashers of the table of a program's types read first (own choice): a word that hangs on all of the program
/// but its places in the text, so that no types whose hashes collide can be searched out for it. It makes no difference
/// but in time, so nothing is said of it.
pub fn salt_of(program: &TProgram) -> Salt {
    let mut whole = DefaultHasher::new();
    for tuple in &program.heap {
        read_data(&mut whole, tuple);
    }
    for block in &program.blocks {
        read_block(&mut whole, block);
    }
    let mut read = DefaultHasher::new();
    read.write_u64(whole.finish());
    Salt { read }
}

// A part, told by a tag of its own from 1 to 255, with three numbers: one word where they are small, else four, of
// which the first has no bits where the tag of one word is. So no two programs are read alike.
fn read_part(read: &mut DefaultHasher, tag: u64, a: u64, b: u64, c: u64) {
    if a < SMALL && b < SMALL && c < SMALL {
        read.write_u64(tag << 56 | a << 36 | b << 18 | c);
    } else {
        for number in [tag, a, b, c] {
            read.write_u64(number);
        }
    }
}

fn read_data(read: &mut DefaultHasher, tuple: &Data) {
    read_part(read, 1, tuple.fields.len() as u64, 0, 0);
    for (value, ty, _) in &tuple.fields {
        read_value(read, value);
        read_type(read, ty);
    }
}

fn read_block(read: &mut DefaultHasher, block: &Block) {
    read_part(read, 2, block.owes, 0, 0);
    read_file(read, &block.regs);
    for (instr, _) in &block.body {
        read_instr(read, instr);
    }
    match &block.end {
        End::Jmp(v) => {
            read_part(read, 3, 0, 0, 0);
            read_value(read, v);
        }
        End::Halt => read_part(read, 4, 0, 0, 0),
    }
}

fn read_instr(read: &mut DefaultHasher, instr: &Instr) {
    match instr {
        Instr::Arith { op, rd, rs, v } => {
            read_part(read, tag_of(*op), *rd, *rs, 0);
            read_value(read, v);
        }
        Instr::Bnz { r, v } => {
            read_part(read, 8, *r, 0, 0);
            read_value(read, v);
        }
        Instr::Ld { rd, rs, field } => read_part(read, 9, *rd, *rs, *field),
        Instr::Malloc { rd, types } => {
            read_part(read, 10, *rd, types.len() as u64, 0);
            read_types(read, types);
        }
        Instr::Mov { rd, v } => {
            read_part(read, 11, *rd, 0, 0);
            read_value(read, v);
        }
        Instr::St { rd, field, rs } => read_part(read, 12, *rd, *field, *rs),
        Instr::Unpack { rd, v } => {
            read_part(read, 13, *rd, 0, 0);
            read_value(read, v);
        }
    }
}

fn tag_of(op: Op) -> u64 {
    match op {
        Op::Add => 5,
        Op::Sub => 6,
        Op::Mul => 7,
    }
}

fn read_value(read: &mut DefaultHasher, value: &Value) {
    match value {
        Value::Plain { base, types } => {
            read_base(read, *base, types.len() as u64);
            read_types(read, types);
        }
        Value::Pack {
            hidden,
            inner,
            shape,
        } => {
            read_part(read, 14, 0, 0, 0);
            read_type(read, hidden);
            read_value(read, inner);
            read_type(read, shape);
        }
    }
}

// What a value begins with, and how many types it is applied to.
fn read_base(read: &mut DefaultHasher, base: Base, types: u64) {
    match base {
        Base::Reg(r) => read_part(read, 15, r, types, 0),
        Base::Int(n) => read_part(read, 16, n.cast_unsigned(), types, 0),
        Base::Label(l) => read_part(read, 17, l, types, 0),
        Base::Data(d) => read_part(read, 18, d, types, 0),
    }
}

#[cycle(types)]
fn read_type(read: &mut DefaultHasher, ty: &TType) {
    match ty {
        TType::Int => read_part(read, 19, 0, 0, 0),
        TType::Var(i) => read_part(read, 20, *i, 0, 0),
        TType::Code { owes, regs } => {
            read_part(read, 21, *owes, 0, 0);
            read_file(read, regs);
        }
        TType::Exists(body) => {
            read_part(read, 22, 0, 0, 0);
            read_type(read, body);
        }
        TType::Tuple(fields) => {
            read_part(read, 23, fields.len() as u64, 0, 0);
            for (field, flag) in fields {
                read_part(read, 24, *flag as u64, 0, 0);
                read_type(read, field);
            }
        }
    }
}

fn read_types(read: &mut DefaultHasher, types: &[TType]) {
    for ty in types {
        read_type(read, ty);
    }
}

#[cycle(types)]
fn read_file(read: &mut DefaultHasher, file: &RegFile) {
    read_part(read, 25, file.regs.len() as u64, 0, 0);
    for (register, ty) in &file.regs {
        read_part(read, 26, *register, 0, 0);
        read_type(read, ty);
    }
}
