use crate::player::Player;
use run_counts::RunCounts;

// The bytes of a unit in front of its body.
const UNIT_HEAD: usize = 13;

/// Tells counts, if there are any, of a unit whose body has so many bytes, and of the frames written so far.
pub(crate) fn tell_played(watch: &Option<&RunCounts>, body: usize, player: &Player) {
    if let Some(watch) = watch {
        watch.add_passed(body.saturating_add(UNIT_HEAD));
        if let Some(stream) = &player.stream {
            watch.tell_frames(stream.frames);
        }
    }
}
