//! What is shown.

ghost use Rattle.std.specs.Prelude.{◌≡◌, ◌≤◌, length};
ghost use Rattle.fp_stream.specs.declared.head.TheConstants.{MOST_BODY};
ghost use Rattle.fp_stream.specs.Frames.{Snapshot};

/// What is shown, of which newer replaces older. All connections that show it share one copy.
pub trait News {
    // What it shows.
    ghost shows: { Self → Snapshot };

    /// How new it is: the revision of what it shows.
    fn revision(&self) -> u64
        ensures { result ≡ (Self.shows self.now).revision };

    /// The body of its frame, which all subscribers are sent from this one copy.
    fn document(&self) -> &[u8]
        // The document of what it shows.
        ensures bytes { result.now ≡ (Self.shows self.now).document }
        // It has at most `MOST_BODY` bytes, the most of a frame.
        ensures short { length result.now ≤ MOST_BODY };
}
