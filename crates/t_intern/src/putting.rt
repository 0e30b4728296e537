// Types put into types, by number.
ghost use Rattle.std.specs.Prelude.{◌≡◌, ℕ, [], ◌∷◌, ◌<◌, ◌≤◌, length, IfOk};
ghost use Rattle.std.specs.List.{All};
ghost use Rattle.idx_core.specs.Over.{IsWord};
ghost use Rattle.t_types.specs.Tree.{VarTy, over, over_file, over_fields, each, each_file, each_fields, put, PutFits};
ghost use Rattle.t_intern.specs.Found.{found};
ghost use Rattle.t_intern.specs.Grown.{Grown, IsNumber, AreRegs, AreFields};
ghost use Rattle.t_intern.specs.Memo.{Remembers};
ghost use Rattle.t_intern.specs.Nodes.{at, regs_at, fields_at, RegsBelow, FieldsBelow};
ghost use Rattle.t_intern.specs.Spread.{types_at, spread, SpreadFitsAt, put_for, MayPut};

use crate::memo::Memo;
use crate::shape::Shape;
use crate::types::Types;
use idx_core::OutOfMemory;

// Types that are put for variables, by number, and the depth that they stand at.
#[derive(Clone, Copy)]
struct Args<'a> {
    base: u64,
    types: &'a [u64],
}

impl Types {
    /// The number of a type into which another one is put. An error is want of memory.
    pub fn put(&mut self, n: u64, place: u64, what: u64) -> Result<u64, OutOfMemory>
        requires there { n < length self.old }
        requires what { what < length self.old }
        requires fits { PutFits place (at self.old what) place (at self.old n) }
        ensures grown { Grown self.old self.new }
        ensures number { IfOk result (IsNumber self.new (put place (at self.old what) (at self.old n))) }
    {
        self.put_all(n, place, &[what], place)
    }

    /// The number of a type into which several types are put in one walk, the last for the variable `depth`. An error
    /// is want of memory.
    pub fn put_all(
        &mut self,
        n: u64,
        base: u64,
        args: &[u64],
        depth: u64,
    ) -> Result<u64, OutOfMemory>
        requires there { n < length self.old }
        requires fits { each (SpreadFitsAt base (types_at self.old args.now)) IsWord depth (at self.old n) }
        requires args { All (λ a. a < length self.old) args.now }
        requires deep { base ≤ depth }
        ensures grown { Grown self.old self.new }
        ensures number { IfOk result (IsNumber self.new (over (spread base (types_at self.old args.now)) depth
            (at self.old n))) }
    {
        let mut memo = self.memo();
        let args = Args { base, types: args };
        self.put_in(&mut memo, n, &args, depth)
    }

    /// The registers of a file by number, with several types put into the type of each in one walk. An error is want of
    /// memory.
    pub fn put_file(
        &mut self,
        regs: &[(u64, u64)],
        base: u64,
        args: &[u64],
        depth: u64,
    ) -> Result<Vec<(u64, u64)>, OutOfMemory>
        requires parts { RegsBelow (length self.old) regs.now }
        requires fits { each_file (SpreadFitsAt base (types_at self.old args.now)) IsWord depth
            (regs_at self.old regs.now) }
        requires args { All (λ a. a < length self.old) args.now }
        requires deep { base ≤ depth }
        ensures grown { Grown self.old self.new }
        ensures numbers { IfOk result (λ v. AreRegs self.new
            (over_file (spread base (types_at self.old args.now)) depth (regs_at self.old regs.now)) v.items) }
    {
        let mut memo = self.memo();
        let args = Args { base, types: args };
        self.put_regs(&mut memo, regs, &args, depth)
    }

    // What stands for a variable.
    fn put_var(&mut self, args: &Args, depth: u64, i: u64) -> Result<u64, OutOfMemory>
        requires fits { MayPut self.old args.now depth i }
        requires args { All (λ a. a < length self.old) args.now.types.now }
        requires deep { args.now.base ≤ depth }
        ensures grown { Grown self.old self.new }
        ensures number { IfOk result (IsNumber self.new (put_for self.old args.now depth i)) }
    {
        if i < depth {
            return self.interned(Shape::Var(i));
        }
        let count = args.types.len();
        let past = i - depth;
        if past < count as u64 {
            return self.shift(args.types[count - 1 - past as usize], depth - args.base, 0);
        }
        self.interned(Shape::Var(i - count as u64))
    }

    // The same, where the memo has what was found before.
    #[cycle(puts)]
    fn put_in(
        &mut self,
        memo: &mut Memo,
        n: u64,
        args: &Args,
        depth: u64,
    ) -> Result<u64, OutOfMemory>
        requires there { n < length self.old }
        requires fits { each (MayPut self.old args.now) IsWord depth (at self.old n) }
        requires args { All (λ a. a < length self.old) args.now.types.now }
        requires deep { args.now.base ≤ depth }
        requires memo { Remembers (put_for self.old args.now) (found memo.old) self.old }
        ensures grown { Grown self.old self.new }
        ensures memo { Remembers (put_for self.old args.now) (found memo.new) self.new }
        ensures number { IfOk result (IsNumber self.new (over (put_for self.old args.now) depth (at self.old n))) }
    {
        if self.bound(n) <= depth as u128 {
            return Ok(n);
        }
        if let Some(made) = memo.recall(n, depth) {
            return Ok(made);
        }
        let made = self.put_parts(memo, n, args, depth)?;
        memo.note(n, depth, made)?;
        Ok(made)
    }

    // The same by its parts.
    #[cycle(puts)]
    fn put_parts(
        &mut self,
        memo: &mut Memo,
        n: u64,
        args: &Args,
        depth: u64,
    ) -> Result<u64, OutOfMemory>
        requires there { n < length self.old }
        requires fits { each (MayPut self.old args.now) IsWord depth (at self.old n) }
        requires args { All (λ a. a < length self.old) args.now.types.now }
        requires deep { args.now.base ≤ depth }
        requires memo { Remembers (put_for self.old args.now) (found memo.old) self.old }
        ensures grown { Grown self.old self.new }
        ensures memo { Remembers (put_for self.old args.now) (found memo.new) self.new }
        ensures number { IfOk result (IsNumber self.new (over (put_for self.old args.now) depth (at self.old n))) }
    {
        match self.copied(n)? {
            Shape::Int => self.interned(Shape::Int),
            Shape::Var(i) => self.put_var(args, depth, i),
            Shape::Code { owes, regs } => {
                let regs = self.put_regs(memo, &regs, args, depth + owes)?;
                self.interned(Shape::Code { owes, regs })
            }
            Shape::Exists(t) => {
                let t = self.put_in(memo, t, args, depth + 1)?;
                self.interned(Shape::Exists(t))
            }
            Shape::Tuple(fields) => {
                let fields = self.put_fields(memo, &fields, args, depth)?;
                self.interned(Shape::Tuple(fields))
            }
        }
    }

    // Registers and fields, each by its type.
    #[cycle(puts)]
    fn put_regs(
        &mut self,
        memo: &mut Memo,
        regs: &[(u64, u64)],
        args: &Args,
        depth: u64,
    ) -> Result<Vec<(u64, u64)>, OutOfMemory>
        requires parts { RegsBelow (length self.old) regs.now }
        requires fits { each_file (MayPut self.old args.now) IsWord depth (regs_at self.old regs.now) }
        requires args { All (λ a. a < length self.old) args.now.types.now }
        requires deep { args.now.base ≤ depth }
        requires memo { Remembers (put_for self.old args.now) (found memo.old) self.old }
        ensures grown { Grown self.old self.new }
        ensures memo { Remembers (put_for self.old args.now) (found memo.new) self.new }
        ensures numbers { IfOk result (λ v. AreRegs self.new
            (over_file (put_for self.old args.now) depth (regs_at self.old regs.now)) v.items) }
    {
        let mut made = Vec::new(self.alloc());
        for reg in regs {
            let t = self.put_in(memo, reg.1, args, depth)?;
            made.push((reg.0, t))?;
        }
        Ok(made)
    }

    #[cycle(puts)]
    fn put_fields(
        &mut self,
        memo: &mut Memo,
        fields: &[(u64, bool)],
        args: &Args,
        depth: u64,
    ) -> Result<Vec<(u64, bool)>, OutOfMemory>
        requires parts { FieldsBelow (length self.old) fields.now }
        requires fits { each_fields (MayPut self.old args.now) IsWord depth (fields_at self.old fields.now) }
        requires args { All (λ a. a < length self.old) args.now.types.now }
        requires deep { args.now.base ≤ depth }
        requires memo { Remembers (put_for self.old args.now) (found memo.old) self.old }
        ensures grown { Grown self.old self.new }
        ensures memo { Remembers (put_for self.old args.now) (found memo.new) self.new }
        ensures numbers { IfOk result (λ v. AreFields self.new
            (over_fields (put_for self.old args.now) depth (fields_at self.old fields.now)) v.items) }
    {
        let mut made = Vec::new(self.alloc());
        for field in fields {
            let t = self.put_in(memo, field.0, args, depth)?;
            made.push((t, field.1))?;
        }
        Ok(made)
    }
}
