//! Laws about the definitions of what blocks show. Each law is a function with an empty body.
ghost use Rattle.std.specs.Prelude.{ℕ, List};
ghost use Rattle.ods_base.specs.declared.file_id.Uic.{Uic};
ghost use Rattle.ods_request.specs.{declared.refusals.Refusal.Refusal, declared.requests.Request.Request};
ghost use Rattle.ods_space.specs.Layout.{VolumeLayout};
ghost use Rattle.ods_state.specs.IndexGrowth.{GrownIndexIsSound, StepBehindGrowth, WantsStay};
ghost use Rattle.ods_state.specs.Laws.{HasCatalogue, CatalogueIsOne, MountedIsLawful, StepStaysLawful, UntouchedFilesStay, LinkedHeaderKeepsBlocks, CarriedOutIsStep, RefusalIsOne};

/// A sound image has a catalogue.
pub fn has_catalogue()
    ensures { HasCatalogue }
{}

/// A sound image has only one catalogue, and a list of entries turns it into only one catalogue.
pub fn catalogue_is_one()
    ensures { CatalogueIsOne }
{}

/// A sound image with an empty list is a lawful volume.
pub fn mounted_is_lawful()
    ensures { MountedIsLawful }
{}

/// A lawful volume stays lawful after one more accepted request.
pub fn step_stays_lawful()
    ensures { StepStaysLawful }
{}

/// A change of some headers does not change the blocks of a file whose first header is not among them.
pub fn untouched_files_stay()
    ensures { UntouchedFilesStay }
{}

/// A header can be replaced by a header with the same links. The blocks of every file are unchanged.
pub fn linked_header_keeps_blocks()
    ensures { LinkedHeaderKeepsBlocks }
{}

/// A request that creates no file is a step if it is carried out and the volume lacks nothing for it.
pub fn carried_out_is_step()
    ensures { CarriedOutIsStep }
{}

/// INDEXF.SYS may grow by free blocks. The image stays sound and shows the same catalogue, and no ID of the past can be assigned again.
pub fn grown_index_is_sound()
    ensures { GrownIndexIsSound }
{}

/// After INDEXF.SYS grows for a request, the request needs the same blocks and numbers, and the volume lacks nothing.
pub fn wants_stay()
    ensures { WantsStay }
{}

/// A step of the volume with the grown INDEXF.SYS is a step of the volume before the growth.
pub fn step_behind_growth()
    ensures { StepBehindGrowth }
{}

/// Refusals by a first fault, and refusals by out of memory, are cases of the one relation of refusal.
pub fn refusal_is_one()
    ensures { (I : List (List ℕ)) (L : VolumeLayout) (who : Uic) (r : Request) (f : Refusal) → RefusalIsOne I L who r f }
{}
