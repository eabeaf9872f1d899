//! Memory as words are added, and the references in it that wait.

ghost use Rattle.std.specs.Prelude.{◌≡◌, ◌<◌, ◌≤◌, ◌&&◌, ◌∷◌, [], None, ℕ, List, OnOk, OnErr, IfOk, length, true, false, slice_index};
ghost use Rattle.tal_words.specs.Braces.{opens};
ghost use Rattle.tal_words.specs.Forms.{size, reaches as reaches_target};
ghost use Rattle.tal_words.specs.Labels.{address_named};
ghost use Rattle.tal_words.specs.Names.{full_name as full_name_in, name_after_rune as name_of_reference};
ghost use Rattle.tal_words.specs.declared.form.Form.TheVariants.{Refer};
ghost use Rattle.tal_labels.specs.declared.placed.PlacedWord.{PlacedWord as PlacedValue};
ghost use Rattle.tal_rom.specs.Filling.{overlaid, filled_hole, is_reference};
ghost use Rattle.tal_rom.specs.Patchers.{PatchModel, PatchHolds, ComesNext, AreFilled, AreOpen, with_word, with_label, with_end, memory_size};
ghost use Rattle.tal_rom.specs.References.{scope_behind};

use crate::encoding::{few_bytes, reference_bytes};
use crate::hole::Hole;
use crate::names::Names;
use crate::references::reaches;
use crate::rom::ZEROS;
use std::alloc::{AllocError, Global};
use tal_words::Form;
use uxn_limits::addresses;

/// Memory with the bytes that are known, and the references that wait.
#[derive(Drop)]
pub struct Patch {
    memory: Vec<u8>,
    /// How many references wait.
    pub(crate) waiting: u32,
    /// Whether all relative bytes whose targets are known fit.
    pub(crate) fits: bool,
    names: Names,
    openers: Vec<Hole>,
}

/// Lays bytes over those in memory from an address on.
fn put(memory: &mut Vec<u8>, at: u64, bytes: &[u8])
    requires { 0 < length bytes.now → at ≤ 65536 }
    ensures { memory.new.items ≡ overlaid memory.old.items at bytes.now }
{
    for (offset, byte) in bytes.iter().enumerate() {
        let index = at as usize + offset;
        if index < memory.len() {
            memory[index] = *byte;
        }
    }
}

/// All of memory, as zeros. They are put some at a time, since the C library puts more of them by an instruction that is
/// slow to begin.
fn zeros(alloc: Global) -> Result<Vec<u8>, AllocError>
    ensures size { IfOk result (λ bytes. length bytes.items ≡ memory_size) }
    ensures each { IfOk result (λ bytes. (at : ℕ) → slice_index bytes.items at ≡ 0) }
{
    let mut memory = Vec::with_capacity(alloc, addresses::MEMORY_END as usize)?;
    for _ in 0..256_usize {
        memory.extend_from_slice(&ZEROS)?;
    }
    Ok(memory)
}

impl Patch {
    /// Memory of zeros, to which no word was added.
    #[tactic(auto, unfolding(crate::specs::Rom::byte_at))]
    pub fn new(alloc: Global) -> Result<Patch, AllocError>
        ensures { IfOk result (λ patch. (source : List ℕ) → PatchHolds (record { source = source; labels = []; words = []; openers = [] }) patch) }
    {
        Ok(Patch {
            memory: zeros(alloc)?,
            waiting: 0,
            fits: true,
            names: Names::new(alloc),
            openers: Vec::new(alloc),
        })
    }

    /// All of memory.
    pub fn memory(&self) -> &[u8]
        ensures { result.now ≡ self.now.memory.items }
    {
        &self.memory
    }

    /// Puts the bytes of a reference that has its target.
    fn fill(&mut self, hole: Hole, target: u16)
        ensures memory { self.new.memory.items ≡ filled_hole target self.old.memory.items hole }
        ensures fits { self.new.fits ≡ (self.old.fits && reaches_target hole.rune hole.address target) }
        ensures waiting { self.new.waiting ≡ self.old.waiting }
        ensures names { self.new.names ≡ self.old.names }
        ensures openers { self.new.openers ≡ self.old.openers }
    {
        if reaches(hole.rune, hole.address as u64, target as u64) {
            let bytes = reference_bytes(hole.rune, hole.address as u64, target as u64);
            put(&mut self.memory, hole.address as u64, bytes.as_slice());
        } else {
            self.fits = false;
        }
    }

    /// Puts the bytes of references that waited for this target.
    fn fill_all(&mut self, holes: &[Hole], target: u16)
        ensures { AreFilled target holes.now self.old self.new }
    {
        for hole in holes {
            self.fill(*hole, target);
            self.waiting = self.waiting.saturating_sub(1);
        }
    }

    /// Adds a word that is no reference.
    pub fn put_word(&mut self, form: Form, text: &[u8], address: u64)
        requires bare { is_reference form ≡ false }
        requires at { 0 < size form text.now → address ≤ 65536 }
        ensures { (model : PatchModel) (placed : PlacedValue) → ComesNext model placed form text.now address
            → PatchHolds model self.old → PatchHolds (with_word false placed model) self.new }
    {
        match form {
            Form::Text => {
                let (_, rest) = text.split_at(text.len().min(1));
                put(&mut self.memory, address, rest);
            }
            _ => put(&mut self.memory, address, few_bytes(form).as_slice()),
        }
    }

    /// Adds a reference that opens a lambda.
    pub fn open(&mut self, hole: Hole) -> Result<(), AllocError>
        ensures ok { OnOk result ((model : PatchModel) (placed : PlacedValue) (text : List ℕ) → opens text ≡ true
            → ComesNext model placed (Refer hole.rune) text hole.address
            → PatchHolds model self.old → PatchHolds (with_word true placed model) self.new) }
        ensures err { OnErr result ((model : PatchModel) → PatchHolds model self.old → PatchHolds model self.new) }
    {
        self.openers.push(hole)?;
        self.waiting = self.waiting.saturating_add(1);
        Ok(())
    }

    /// Adds a reference to a full name.
    pub fn refer(&mut self, alloc: Global, name: Vec<u8>, hole: Hole) -> Result<(), AllocError>
        ensures ok { OnOk result ((model : PatchModel) (placed : PlacedValue) (text : List ℕ) → opens text ≡ false
            → name.items ≡ full_name_in (scope_behind model.source model.words) (name_of_reference text)
            → ComesNext model placed (Refer hole.rune) text hole.address
            → PatchHolds model self.old → PatchHolds (with_word false placed model) self.new) }
        ensures err { OnErr result ((model : PatchModel) → PatchHolds model self.old → PatchHolds model self.new) }
    {
        match self.names.refer(alloc, name, hole)? {
            Some(target) => self.fill(hole, target),
            None => self.waiting = self.waiting.saturating_add(1),
        }
        Ok(())
    }

    /// Defines a full name that is new, and fills the references that waited for it.
    pub fn define(&mut self, alloc: Global, name: Vec<u8>, address: u16) -> Result<(), AllocError>
        ensures ok { OnOk result ((model : PatchModel) → address_named model.labels name.items ≡ None
            → PatchHolds model self.old → PatchHolds (with_label (record { name = name.items; address = address }) model) self.new) }
        ensures err { OnErr result ((model : PatchModel) → PatchHolds model self.old → PatchHolds model self.new) }
    {
        let holes = self.names.define(alloc, name, address)?;
        self.fill_all(&holes, address);
        Ok(())
    }

    /// Closes the last lambda that is open, and fills the reference that opened it.
    pub fn close(&mut self, address: u16)
        ensures { (model : PatchModel) → AreOpen model → PatchHolds model self.old → PatchHolds (with_end address model) self.new }
    {
        match self.openers.pop() {
            Some(hole) => self.fill_all(&[hole], address),
            None => {}
        }
    }
}
