//! Laws of the spellings.

ghost use Rattle.fp_record.specs.Laws.{BatchesStandAlone, ImagesStandAlone};
ghost use Rattle.fp_record.specs.Laws.{BatchesTakeTheirChanges, ImagesTakeTheirSetsSize};

/// No batch's spelling begins another's, and no two batches have one spelling.
pub fn batches_stand_alone()
    ensures { BatchesStandAlone }
{}

/// No image's spelling begins another's, and no two images have one spelling.
pub fn images_stand_alone()
    ensures { ImagesStandAlone }
{}

/// A batch takes `BATCH_HEAD` bytes, 10, and those of its changes. So its length is known without
/// its spelling.
pub fn batches_take_their_changes()
    ensures { BatchesTakeTheirChanges }
{}

/// The image of a set takes as many bytes as the set keeps as its size.
pub fn images_take_their_sets_size()
    ensures { ImagesTakeTheirSetsSize }
{}
