//! What holds of frames, whoever reads them.

ghost use Rattle.std.specs.Prelude.{◌≡◌, ◌++◌, ℕ, List, Option};
ghost use Rattle.fp_stream.specs.declared.hello.Hello.{Hello};
ghost use Rattle.fp_stream.specs.declared.fault.FrameFault.{FrameFault};
ghost use Rattle.fp_stream.specs.Frames.{Snapshot, stream_of, AreNews};
ghost use Rattle.fp_stream.specs.Reading.{Reads};
ghost use Rattle.fp_stream.specs.Decoding.{Reader, HasRead};

/// Law: bytes are read in one way: the frames, the rest and the fault are determined.
pub fn one_reading()
    ensures { (has : Hello) (bytes : List ℕ) (f g : List Snapshot) (r t : List ℕ)
        (x y : Option FrameFault) → Reads has bytes f r x → Reads has bytes g t y →
        (f ≡ g) × (r ≡ t) × (x ≡ y) }
{}

/// Law: the frames that are read are the longest list of them: any other that stands in front is
/// their beginning.
pub fn no_other_frames()
    ensures { (has : Hello) (bytes : List ℕ) (frames others : List Snapshot) (rest more : List ℕ)
        (fault : Option FrameFault) → Reads has bytes frames rest fault →
        AreNews has others → bytes ≡ stream_of others ++ more →
        (last : List Snapshot) × (frames ≡ others ++ last) }
{}

/// Law: a decoder that has taken what was written for some snapshots has given these, and nothing
/// else.
pub fn what_is_written_is_read()
    ensures { (has : Hello) (snapshots given : List Snapshot) (now : Reader) →
        AreNews has snapshots → HasRead has (stream_of snapshots) given now →
        given ≡ snapshots }
{}
