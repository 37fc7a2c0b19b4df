// The frames after the header: so many, each of so many digits and a newline.
ghost use Rattle.std.specs.Prelude.{◌≡◌, ◌+◌, ◌≤◌, ◌<◌, length};
ghost use Rattle.reader.specs.Frames.{frame_at, frame_formed, frames_formed, FewFrames};

use crate::inner::header::FRAME;
use hexdigits::inner::all_hex;

// How many there are, and the digits of each.
#[derive(Clone, Copy)]
pub struct Frames {
    pub count: usize,
    pub width: usize,
    pub ghost few: { FewFrames count width },
}

impl Frames {
    // Where frame k begins.
    #[tactic(auto, unfolding(crate::specs::Frames::frame_at))]
    pub fn at(self, k: usize) -> usize
        requires { k ≤ self.count }
        ensures { result ≡ frame_at self.width k }
    {
        FRAME + k * (self.width + 1)
    }

    // Whether frame k is its digits and a newline.
    #[tactic(auto, unfolding(crate::specs::Frames::frame_formed))]
    fn frame_formed(self, s: &[u8], k: usize) -> bool
        requires { (k ≤ self.count) × (frame_at self.width k + self.width < length s.now) }
        ensures { result ≡ frame_formed s.now self.width k }
    {
        let at = self.at(k);
        all_hex(s, at, self.width) && s[at + self.width] == b'\n'
    }

    // Whether all frames are well formed, and nothing stands after the last.
    pub fn formed(self, s: &[u8]) -> bool
        ensures { result ≡ frames_formed s.now self.count self.width }
    {
        s.len() == self.at(self.count) && (0..self.count).all(|k| self.frame_formed(s, k))
    }
}
