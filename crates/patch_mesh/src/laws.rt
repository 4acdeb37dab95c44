//! What holds of the definitions in `specs/`, each as the contract of a function that does nothing.
ghost use Rattle.patch_mesh.specs.Tiling.{PatchesTile, RoomIsTiled};

/// The parts of a surface fill it without gap and overlap, none is empty or longer than the longest edge asked for, and the
/// areas of its patches add up to its own.
pub fn patches_tile()
    ensures { PatchesTile }
{}

/// So do the parts of each surface of an accepted room and of its boxes.
pub fn room_is_tiled()
    ensures { RoomIsTiled }
{}
