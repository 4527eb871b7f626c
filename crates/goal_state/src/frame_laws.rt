//! Laws of frames, as contracts of functions that do nothing.
ghost use Rattle.goal_state.specs.Frames.{FramesRead, NothingOutside, ItemsTake, ItemsMove, ItemsStay, FitsStay, FitsMove, FitsTake, FitsPut, FitsRead};

/// What goes on from a frame is what is left of its part, and then what goes on after it.
pub fn frames_read()
    ensures { FramesRead }
{}

/// Nothing goes on where no frame is.
pub fn nothing_outside()
    ensures { NothingOutside }
{}

/// Where newer frames are dropped, the same goes on from the frames that are left.
pub fn items_take()
    ensures { ItemsTake }
{}

/// Where bindings are added, each item that is still to be run is the item before, under these bindings.
pub fn items_move()
    ensures { ItemsMove }
{}

/// Where the store only grows, the same is still to be run.
pub fn items_stay()
    ensures { ItemsStay }
{}

/// Frames fit a store that only grows.
pub fn fits_stay()
    ensures { FitsStay }
{}

/// Frames fit a store to which bindings are added.
pub fn fits_move()
    ensures { FitsMove }
{}

/// Frames fit where the newer ones are dropped.
pub fn fits_take()
    ensures { FitsTake }
{}

/// Frames fit where one that fits is put above the first ones.
pub fn fits_put()
    ensures { FitsPut }
{}

/// A frame that is read fits where all do.
pub fn fits_read()
    ensures { FitsRead }
{}
