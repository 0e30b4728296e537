// Whether what is known of the registers fits the file of a jump's target. A file that was seen to fit fits still, but
// for the registers that were set since, so only these are looked at.
ghost use Rattle.std.specs.Prelude.{◌≡◌, ◌↔◌, ◌<◌, ◌≤◌, ◌⊎◌, ℕ, List, length, None, slice_get, IsTrue, IfSome, OnOk};
ghost use Rattle.std.specs.Prelude.{option_map};
ghost use Rattle.t_types.specs.Fits.{lookup};
ghost use Rattle.t_types.specs.Tree.{Ty, TFile, CodeTy, Below};
ghost use Rattle.t_intern.specs.Grown.{Grown};
ghost use Rattle.t_intern.specs.Nodes.{at, regs_at, RegsBelow};
ghost use Rattle.t_known.specs.Fitted.{Rises, reg_in};
ghost use Rattle.t_known.specs.Known.{known, IsSound, IsSame, IsRemembered, IsFittedBut};
ghost use Rattle.t_known.specs.Tells.{TellsFile, TellsPlace, TellsReg, TellsAt, TellsSince};
ghost use Rattle.t_known.specs.Parts.{with_type};

use crate::parts::regs_of;
use crate::registers::{Moment, Registers};
use idx_core::OutOfMemory;
use t_intern::Types;

impl Registers {
    /// Whether each register of the code's file is known, by a type that fits.
    pub fn fit(&mut self, types: &mut Types, code: u64) -> Result<bool, OutOfMemory>
        requires sound { IsSound types.old self.old }
        requires there { code < length types.old }
        requires code { (f : TFile) × (at types.old code ≡ CodeTy 0 f) }
        ensures grown { Grown types.old types.new }
        ensures fit { (f : TFile) → at types.old code ≡ CodeTy 0 f → TellsFile (known types.old self.old) f result }
        ensures same { IsSame self.old self.new }
        ensures sound { OnOk result (IsSound types.new self.new) }
    {
        if let Some(from) = self.fitted_but(types, code) {
            return self.fit_since(types, code, from);
        }
        self.fit_whole(types, code)
    }

    // The place in what was set at which the code's file was seen to fit, where fewer were set since than it names.
    fn fitted_but(&self, types: &Types, code: u64) -> Option<usize>
        requires sound { IsSound types.now self.now }
        requires there { code < length types.now }
        ensures { IfSome result (IsFittedBut types.now self.now code) }
    {
        let moment = match self.fitted.get(&code) {
            Some(moment) => *moment,
            None => return None,
        };
        if !self.lasts(types, code, moment) {
            return None;
        }
        let since = self.changed.len() - moment.set;
        if since < width(types, code) {
            Some(moment.set)
        } else {
            None
        }
    }

    // Whether the code's type means what it meant at the moment: no name came into scope, or none is free in it.
    fn lasts(&self, types: &Types, code: u64, moment: Moment) -> bool
        requires { code < length types.now }
        ensures { IsTrue result → (moment.names ≡ self.now.names) ⊎ Below 0 (at types.now code) }
    {
        if moment.names == self.names {
            return true;
        }
        types.bound(code) == 0
    }

    // By the registers that were set since.
    fn fit_since(&mut self, types: &mut Types, code: u64, from: usize) -> Result<bool, OutOfMemory>
        requires sound { IsSound types.old self.old }
        requires there { code < length types.old }
        requires fitted { IsFittedBut types.old self.old code from }
        ensures grown { Grown types.old types.new }
        ensures fit { (f : TFile) → at types.old code ≡ CodeTy 0 f → TellsFile (known types.old self.old) f result }
        ensures same { IsSame self.old self.new }
        ensures sound { OnOk result (IsSound types.new self.new) }
    {
        if !self.agree_since(types, code, from)? {
            return Ok(false);
        }
        self.remember(code)?;
        Ok(true)
    }

    // By the registers of the file. It is remembered where they rise, as those of a program do: the table of types does
    // not say so.
    fn fit_whole(&mut self, types: &mut Types, code: u64) -> Result<bool, OutOfMemory>
        requires sound { IsSound types.old self.old }
        requires there { code < length types.old }
        ensures grown { Grown types.old types.new }
        ensures fit { (f : TFile) → at types.old code ≡ CodeTy 0 f → TellsFile (known types.old self.old) f result }
        ensures same { IsSame self.old self.new }
        ensures sound { OnOk result (IsSound types.new self.new) }
    {
        if !self.fit_regs(types, code)? {
            return Ok(false);
        }
        if !regs_rise(types, code) {
            return Ok(true);
        }
        self.remember(code)?;
        Ok(true)
    }

    // The code's file fits now.
    fn remember(&mut self, code: u64) -> Result<(), OutOfMemory>
        ensures remembered { OnOk result (IsRemembered self.old self.new code) }
        ensures same { IsSame self.old self.new }
    {
        let set = self.changed.len();
        let names = self.names;
        self.fitted.insert(code, Moment { set, names })?;
        Ok(())
    }

    // Whether each register of the code's file is known, by a type that fits. Each is looked up anew, since the table
    // may have grown.
    fn fit_regs(&self, types: &mut Types, code: u64) -> Result<bool, OutOfMemory>
        requires sound { IsSound types.old self.now }
        requires there { code < length types.old }
        ensures grown { Grown types.old types.new }
        ensures fit { (f : TFile) → at types.old code ≡ CodeTy 0 f → TellsFile (known types.old self.now) f result }
    {
        let count = width(types, code);
        for i in 0..count {
            if !self.fits_place(types, code, i)? {
                return Ok(false);
            }
        }
        Ok(true)
    }

    // Whether the register at a place of the code's file is known, by a type that fits.
    fn fits_place(&self, types: &mut Types, code: u64, i: usize) -> Result<bool, OutOfMemory>
        requires sound { IsSound types.old self.now }
        requires there { code < length types.old }
        ensures grown { Grown types.old types.new }
        ensures fit { (f : TFile) → at types.old code ≡ CodeTy 0 f →
            TellsPlace (known types.old self.now) f i result }
    {
        match reg_at(types, code, i) {
            Some(reg) => self.fits_reg(types, reg.0, reg.1),
            None => Ok(true),
        }
    }

    // The same of those that were set since a place, where the file names them.
    fn agree_since(&self, types: &mut Types, code: u64, from: usize) -> Result<bool, OutOfMemory>
        requires sound { IsSound types.old self.now }
        requires there { code < length types.old }
        requires rises { (f : TFile) → at types.old code ≡ CodeTy 0 f → Rises f }
        ensures grown { Grown types.old types.new }
        ensures fit { (f : TFile) → at types.old code ≡ CodeTy 0 f →
            TellsSince (known types.old self.now) f self.now.changed.items from result }
    {
        for i in from..self.changed.len() {
            if !self.agrees(types, code, self.changed[i])? {
                return Ok(false);
            }
        }
        Ok(true)
    }

    // Whether a register that the file may name fits.
    fn agrees(&self, types: &mut Types, code: u64, r: u64) -> Result<bool, OutOfMemory>
        requires sound { IsSound types.old self.now }
        requires there { code < length types.old }
        requires rises { (f : TFile) → at types.old code ≡ CodeTy 0 f → Rises f }
        ensures grown { Grown types.old types.new }
        ensures fit { (f : TFile) → at types.old code ≡ CodeTy 0 f → TellsAt (known types.old self.now) f r result }
    {
        match wanted_of(types, code, r) {
            Some(wanted) => self.fits_reg(types, r, wanted),
            None => Ok(true),
        }
    }

    // Whether a register is known, by a type that fits.
    fn fits_reg(&self, types: &mut Types, r: u64, wanted: u64) -> Result<bool, OutOfMemory>
        requires sound { IsSound types.old self.now }
        requires wanted { wanted < length types.old }
        ensures grown { Grown types.old types.new }
        ensures fit { TellsReg (known types.old self.now) r (at types.old wanted) result }
    {
        match self.find(r) {
            Some(entry) => self.fits_entry(types, entry, wanted),
            None => Ok(false),
        }
    }
}

// The register at a place of the code's file, with the number of its type.
fn reg_at(types: &Types, code: u64, i: usize) -> Option<(u64, u64)>
    requires { code < length types.now }
    ensures there { IfSome result (λ x. x.1 < length types.now) }
    ensures reg { (f : TFile) → at types.now code ≡ CodeTy 0 f →
        option_map (with_type types.now) result ≡ reg_in f i }
{
    match regs_of(types, code) {
        Some(regs) => nth(regs, i),
        None => None,
    }
}

fn nth(regs: &[(u64, u64)], i: usize) -> Option<(u64, u64)>
    ensures { result ≡ slice_get regs.now i }
{
    regs.get(i).copied()
}

// The type that the code's file names for a register, where the file rises.
fn wanted_of(types: &Types, code: u64, r: u64) -> Option<u64>
    requires { code < length types.now }
    ensures there { IfSome result (λ n. n < length types.now) }
    ensures wanted { (f : TFile) → at types.now code ≡ CodeTy 0 f → Rises f →
        option_map (at types.now) result ≡ lookup f r }
{
    match regs_of(types, code) {
        Some(regs) => type_in(regs, r),
        None => None,
    }
}

fn type_in(regs: &[(u64, u64)], r: u64) -> Option<u64>
    ensures below { (n : ℕ) → RegsBelow n regs.now → IfSome result (λ t. t < n) }
    ensures found { (ts : List Ty) → Rises (regs_at ts regs.now) →
        option_map (at ts) result ≡ lookup (regs_at ts regs.now) r }
{
    match regs.binary_search_by_key(&r, |reg| reg.0) {
        Ok(i) => Some(regs[i].1),
        Err(_) => None,
    }
}

// How many registers the code's file names.
fn width(types: &Types, code: u64) -> usize
    requires { code < length types.now }
    ensures { (f : TFile) → at types.now code ≡ CodeTy 0 f → (i : ℕ) → result ≤ i → reg_in f i ≡ None }
{
    match regs_of(types, code) {
        Some(regs) => regs.len(),
        None => 0,
    }
}

// Whether the registers of the code's file rise, each once.
fn regs_rise(types: &Types, code: u64) -> bool
    requires { code < length types.now }
    ensures { (f : TFile) → at types.now code ≡ CodeTy 0 f → IsTrue result ↔ Rises f }
{
    match regs_of(types, code) {
        Some(regs) => rise(regs),
        None => false,
    }
}

// Whether the registers rise, each once.
fn rise(regs: &[(u64, u64)]) -> bool
    ensures { (ts : List Ty) → IsTrue result ↔ Rises (regs_at ts regs.now) }
{
    regs.is_sorted_by(|a, b| a.0 < b.0)
}
