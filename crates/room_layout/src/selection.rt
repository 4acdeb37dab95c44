//! A room with just some of its lamps.
ghost use Rattle.std.specs.Prelude.{◌≡◌, if◌then◌else◌, [], ◌∷◌, ◌++◌, IfOk, IfErr, OnOk, length};
ghost use Rattle.room_layout.specs.Kept.{kept, IsWithout};

use crate::{Block, Blocks, FileUse, FileUses, Lamp, Lamps, Name, Room, RoomFault};
use std::alloc::{AllocError, Global};

/// One more lamp, where it is kept.
fn push_kept(some: &mut Vec<Lamp>, lamp: Lamp, keep: bool) -> Result<(), RoomFault>
    ensures pushed { OnOk result (some.new.items ≡ (if keep then some.old.items ++ lamp ∷ [] else some.old.items)) }
    ensures want { IfErr result (λ fault. fault ≡ RoomFault.Memory) }
{
    if keep {
        some.push(lamp)?;
    }
    Ok(())
}

/// The lamps that are kept, in order.
fn kept_lamps(alloc: Global, lamps: &[Lamp], keep: &[bool]) -> Result<Lamps, RoomFault>
    requires agree { length keep.now ≡ length lamps.now }
    ensures some { IfOk result (λ some. some ≡ kept keep.now lamps.now) }
    ensures want { IfErr result (λ fault. fault ≡ RoomFault.Memory) }
{
    let mut some = Vec::new(alloc);
    for k in 0..lamps.len() {
        let lamp = lamps[k];
        let is_kept = keep[k];
        push_kept(&mut some, lamp, is_kept)?;
    }
    Ok(Lamps::from_vec(some))
}

/// A copy of the boxes.
fn copied_blocks(alloc: Global, blocks: &[Block]) -> Result<Blocks, AllocError>
    ensures { IfOk result (λ copied. copied ≡ blocks.now) }
{
    let copied = Vec::from_slice(alloc, blocks)?;
    Ok(Blocks::from_vec(copied))
}

/// A copy of a use of a file.
fn copied_use(alloc: Global, file: &FileUse) -> Result<FileUse, AllocError>
    ensures { IfOk result (λ copied. copied ≡ file.now) }
{
    let name = Name::from_text(alloc, file.name.text())?;
    let set = file.set;
    Ok(FileUse { name, set })
}

/// A copy of the uses of files.
fn copied_files(alloc: Global, files: &[FileUse]) -> Result<FileUses, RoomFault>
    ensures copied { IfOk result (λ copied. copied ≡ files.now) }
    ensures want { IfErr result (λ fault. fault ≡ RoomFault.Memory) }
{
    let mut copied = Vec::new(alloc);
    for file in files {
        let one = copied_use(alloc, file)?;
        copied.push(one)?;
    }
    Ok(FileUses::from_vec(copied))
}

impl Room {
    /// The same room with just the lamps that are kept, in order. Its files stay as they are, also those that no lamp uses now.
    pub fn without(&self, alloc: Global, keep: &[bool]) -> Result<Room, RoomFault>
        requires agree { length keep.now ≡ length self.now.lamps }
        ensures without { IfOk result (λ room. IsWithout self.now keep.now room) }
        ensures want { IfErr result (λ fault. fault ≡ RoomFault.Memory) }
    {
        let lamps = kept_lamps(alloc, self.lamps.as_slice(), keep)?;
        let blocks = copied_blocks(alloc, self.blocks.as_slice())?;
        let files = copied_files(alloc, self.files.as_slice())?;
        Ok(Room {
            size: self.size,
            reflect: self.reflect,
            patch: self.patch,
            blocks,
            lamps,
            files,
            task: self.task,
            limits: self.limits,
        })
    }
}
