ghost use Rattle.std.specs.Prelude.{◌≡◌, ℕ, ◌<◌, List, All, length};
ghost use Rattle.frame_writer.specs.FrameBytes.{frame_of_bytes, frame_length};
ghost use Rattle.vc_types.specs.declared.shape.Shape.{Shape};
ghost use Rattle.vc_types.specs.RawFrames.{is_wide, frame_bytes};

/// The frame that so many bytes are read as has these bytes.
pub fn frames_are_their_bytes()
    ensures { (shape : Shape) (bytes : List ℕ) → length bytes ≡ frame_length shape
        → All (λ byte. byte < 256) bytes
        → frame_bytes (frame_of_bytes shape bytes) (is_wide shape) ≡ bytes }
{}
