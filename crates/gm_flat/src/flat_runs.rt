//! Runs of folios that are added together.

ghost use Rattle.std.specs.Prelude.{◌≡◌, Some, None, IfOk, IfSome, if◌then◌else◌};
ghost use Rattle.gm_flat.specs.declared.effect.Backing.TheVariants.{Folio as InFolio};
ghost use Rattle.gm_flat.specs.Effects.{addition_fits, get_addition, page_addition, source, with_run};
ghost use Rattle.gm_flat.specs.Replayed.{InRange, addition, run_of, source_file};

use crate::flat_items::{CachedPage, FileState};
use crate::flat_lists::{find_over, has_file, index_over};
use crate::views::SlotView;
use gm_base::{BLOCK_PAGES, Folio, Ioctl, NoMemory, PAGE_BYTES};
use std::alloc::Global;

/// `pages` folios of a file, with indexes, serials and frames that rise by one from these on.
#[derive(Clone, Copy, Debug, PartialEq, Eq)]
pub(crate) struct Run {
    pub(crate) file: u32,
    pub(crate) index: u64,
    pub(crate) serial: u64,
    pub(crate) frame: u32,
    pub(crate) pages: u16,
}

impl Run {
    /// Whether the file was made, and each index, serial and frame is within its type.
    fn fits(&self, files: &[FileState]) -> bool
        ensures { result ≡ addition_fits (addition self.now) files.now }
    {
        let steps = u64::from(self.pages).saturating_sub(1);
        has_file(files, self.file)
            && steps <= u64::MAX - self.index
            && steps <= u64::MAX - self.serial
            && steps <= u64::from(u32::MAX - self.frame)
    }

    /// The run, where it fits.
    fn if_fits(self, files: &[FileState]) -> Option<Run>
        ensures run { result ≡ (if addition_fits (addition self) files.now then Some self else None) }
        ensures bounds { IfSome result InRange }
    {
        if self.fits(files) { Some(self) } else { None }
    }
}

/// The run that a fault's Get adds: its folio alone where `fresh` is 1, the aligned run that holds its index where it is
/// 512.
pub(crate) fn run_of_get(
    folio: Folio,
    fresh: u16,
    file: u32,
    index: u64,
    files: &[FileState],
) -> Option<Run>
    ensures run { result ≡ run_of (get_addition (InFolio folio) fresh (Some file) (Some index) files.now) }
    ensures bounds { IfSome result InRange }
{
    if fresh != 1 && u64::from(fresh) != BLOCK_PAGES {
        return None;
    }
    let past = index % u64::from(fresh);
    if folio.serial < past || u64::from(folio.frame) < past {
        return None;
    }
    let run = Run {
        file,
        index: index - past,
        serial: folio.serial - past,
        frame: folio.frame - past as u32,
        pages: fresh,
    };
    run.if_fits(files)
}

/// The file that a call adds the page of this index to.
pub(crate) fn file_of_call(ioctl: &Ioctl, index: u64, slots: &[SlotView]) -> Option<u32>
    ensures { result ≡ source_file (source ioctl.now index slots.now) }
{
    match *ioctl {
        Ioctl::Allocate { fd, .. } => Some(fd),
        Ioctl::Populate { gpa, .. } => {
            let page = gpa / PAGE_BYTES;
            let slot = find_over(slots, page)?;
            let file = slot.file?;
            match index_over(&slot, page) {
                Some(first) if first <= index => Some(file),
                _ => None,
            }
        }
        _ => None,
    }
}

/// The run that a call's Page adds.
pub(crate) fn run_of_page(
    index: u64,
    folio: Folio,
    pages: u16,
    file: u32,
    files: &[FileState],
) -> Option<Run>
    ensures run { result ≡ run_of (page_addition index folio pages (Some (record { file = file; copy = None })) files.now) }
    ensures bounds { IfSome result InRange }
{
    let run = Run {
        file,
        index,
        serial: folio.serial,
        frame: folio.frame,
        pages,
    };
    run.if_fits(files)
}

/// The cache with the pages of a run.
pub(crate) fn with_run(
    alloc: Global,
    run: &Run,
    cache: &[CachedPage],
) -> Result<Vec<CachedPage>, NoMemory>
    requires { InRange run.now }
    ensures { IfOk result (λ pages. pages.items ≡ with_run run.now.pages run.now.file run.now.index run.now.serial run.now.frame cache.now) }
{
    let mut pages = Vec::new(alloc);
    for count in 0..run.pages {
        let step = run.pages - 1 - count;
        pages.push(CachedPage {
            file: run.file,
            index: run.index + u64::from(step),
            folio: Folio {
                serial: run.serial + u64::from(step),
                frame: run.frame + u32::from(step),
            },
        })?;
    }
    pages.extend_from_slice(cache)?;
    Ok(pages)
}
