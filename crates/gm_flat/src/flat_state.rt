//! The flat state as plain lists.

ghost use Rattle.std.specs.Prelude.{◌≡◌, [], Some, None, OnOk, OnErr, MatchOption};
ghost use Rattle.gm_base.specs.declared.numbers.TheConstants.{KVM_MEM_READONLY};
ghost use Rattle.gm_flat.specs.Effects.{apply, shut, with_slot};
ghost use Rattle.gm_flat.specs.FlatState.{start, has_flag};
ghost use Rattle.gm_flat.specs.NamedPage.{named};
ghost use Rattle.gm_flat.specs.Replayed.{AllFit, InRange, shown, with_cached};

use crate::effect::{Backing, Effect};
use crate::flat_items::{AttrCall, CachedPage, FileState};
use crate::flat_lists::{
    attr_at, cached_at, cut, cut_file, drop_id, find_unmarked, fits, index_over, leave_file,
    mark_id, move_id, place_of_file,
};
use crate::flat_runs::{Run, with_run};
use crate::views::SlotView;
use gm_base::{KVM_MEM_READONLY, Kind, NoMemory, Page};
use std::alloc::Global;

/// The attribute calls, the slots, the files and the cached pages, in each list the one added last first.
#[derive(Debug, Drop)]
pub(crate) struct State {
    pub(crate) attrs: Vec<AttrCall>,
    pub(crate) slots: Vec<SlotView>,
    pub(crate) files: Vec<FileState>,
    pub(crate) cache: Vec<CachedPage>,
}

impl State {
    /// No call, slot, file or cached page.
    pub(crate) fn new(alloc: Global) -> State
        ensures { shown result ≡ start }
    {
        State {
            attrs: Vec::new(alloc),
            slots: Vec::new(alloc),
            files: Vec::new(alloc),
            cache: Vec::new(alloc),
        }
    }

    /// Makes an effect.
    pub(crate) fn apply(&mut self, effect: Effect) -> Result<(), NoMemory>
        ensures ok { OnOk result (shown self.new ≡ apply effect (shown self.old)) }
        ensures err { OnErr result (shown self.new ≡ shown self.old) }
    {
        match effect {
            Effect::File { file, pages, block } => self.make_file(file, pages, block)?,
            Effect::Slot {
                slot,
                base,
                pages,
                user,
                flags,
                file,
                index,
            } => self.make_slot(SlotView {
                id: slot,
                base,
                pages,
                user,
                flags,
                file,
                index,
                invalid: false,
            })?,
            Effect::Mark { slot } => mark_id(&mut self.slots, slot),
            Effect::NoSlot { slot } => drop_id(&mut self.slots, slot),
            Effect::Move { slot, base } => move_id(&mut self.slots, slot, base),
            Effect::Attr { span, kind } => self.attrs.insert(0, AttrCall { span, kind })?,
            Effect::Cut { file, lo, hi } => cut(&mut self.cache, file, lo, hi),
            Effect::Shut { file } => self.shut(file),
            Effect::Word { .. } => {}
        }
        Ok(())
    }

    /// Adds a file in use.
    fn make_file(&mut self, file: u32, pages: u64, block: bool) -> Result<(), NoMemory>
        ensures ok { OnOk result (shown self.new ≡ apply (Effect.File file pages block) (shown self.old)) }
        ensures err { OnErr result (shown self.new ≡ shown self.old) }
    {
        self.files.insert(
            0,
            FileState {
                number: file,
                pages,
                block,
                used: true,
            },
        )?;
        Ok(())
    }

    /// Adds a slot, where its user pages and indexes are within their types.
    fn make_slot(&mut self, slot: SlotView) -> Result<(), NoMemory>
        ensures ok { OnOk result (shown self.new ≡ with_slot slot (shown self.old)) }
        ensures err { OnErr result (shown self.new ≡ shown self.old) }
    {
        if fits(&slot) {
            self.slots.insert(0, slot)?;
        }
        Ok(())
    }

    /// Shuts a file that was made: its pages leave the cache, and its slots stay without a file.
    fn shut(&mut self, file: u32)
        ensures { shown self.new ≡ shut file (shown self.old) }
    {
        if let Some(at) = place_of_file(&self.files, file) {
            self.files[at] = self.files[at].shut();
            leave_file(&mut self.slots, file);
            cut_file(&mut self.cache, file);
        }
    }

    /// Caches the pages of a run.
    pub(crate) fn add(&mut self, alloc: Global, run: &Run) -> Result<(), NoMemory>
        requires { InRange run.now }
        ensures ok { OnOk result (shown self.new ≡ with_cached (Some run.now) (shown self.old)) }
        ensures err { OnErr result (shown self.new ≡ shown self.old) }
    {
        self.cache = with_run(alloc, run, &self.cache)?;
        Ok(())
    }

    /// What the slot over a page, the page's attribute and the cache name at it, and whether it may be written.
    pub(crate) fn named(&self, page: Page) -> Option<(Kind, Backing, bool)>
        requires { AllFit self.now.slots.items }
        ensures { MatchOption result (named (shown self.now) page ≡ None) (λ found. named (shown self.now) page ≡ Some (record { kind = found.0; backing = found.1; writable = found.2 })) }
    {
        let page = page.number();
        let slot = find_unmarked(&self.slots, page)?;
        match attr_at(&self.attrs, page) {
            Kind::Shared => {
                let backing = Backing::User(slot.user + (page - slot.base));
                Some((Kind::Shared, backing, !is_read_only(slot.flags)))
            }
            Kind::Private => {
                let file = slot.file?;
                let index = index_over(&slot, page)?;
                let folio = cached_at(&self.cache, file, index)?;
                Some((Kind::Private, Backing::Folio(folio), true))
            }
        }
    }
}

/// Whether the flags say that guests can't write.
fn is_read_only(flags: u32) -> bool
    ensures { result ≡ has_flag KVM_MEM_READONLY flags }
{
    flags & KVM_MEM_READONLY != 0
}
