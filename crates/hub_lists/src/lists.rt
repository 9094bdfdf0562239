// All lists of cameras, and choices of their patterns, each by its number.
ghost use Rattle.std.specs.Prelude.{◌≤◌};

// The most frames, and the most cameras.
pub(crate) const FRAMES: usize = 24;

pub(crate) const CAMERAS: usize = 6;

// All lists of so many cameras and of a number of frames from one up to another, in runs of so many of one camera, each with the first so many choices
// of patterns.
#[derive(Clone, Copy)]
pub(crate) struct Lists {
    pub(crate) cameras: usize,
    pub(crate) from: usize,
    pub(crate) to: usize,
    pub(crate) run: usize,
    pub(crate) choices: usize,
}

impl Lists {
    pub(crate) fn new(cameras: usize, from: usize, to: usize, run: usize, choices: usize) -> Lists {
        Lists {
            cameras,
            from,
            to,
            run,
            choices,
        }
    }

    // How many of them have so many frames.
    pub(crate) fn how_many(&self, frames: usize) -> usize {
        let mut product: usize = 1;
        for _ in 0..frames / self.run.max(1) {
            product = product.saturating_mul(self.cameras);
        }
        product
    }
}

// One of them, of so many frames, by its number; and the number of the choice of patterns.
#[derive(Clone, Copy)]
pub(crate) struct Case {
    pub(crate) lists: Lists,
    pub(crate) frames: usize,
    pub(crate) number: usize,
    pub(crate) choice: usize,
}

impl Case {
    pub(crate) fn camera_count(&self) -> usize
        ensures { result ≤ 6 }
    {
        self.lists.cameras.min(CAMERAS)
    }

    pub(crate) fn frame_count(&self) -> usize
        ensures { result ≤ 24 }
    {
        self.frames.min(FRAMES)
    }

    // The camera of each frame: those of the runs are the digits of the list's number, in a system with a digit for each camera.
    pub(crate) fn cameras(&self) -> [u8; FRAMES] {
        let base = self.camera_count().max(1);
        let run = self.lists.run.max(1);
        let mut list = [0; FRAMES];
        let mut rest = self.number;
        for (i, camera) in list.iter_mut().enumerate() {
            // It fits: `try_from` would be a Result that is never an Err.
            *camera = (rest % base) as u8;
            if (i + 1) % run == 0 {
                rest /= base;
            }
        }
        list
    }

    // The pattern of camera q is a + b * q modulo 8, where a and b are the digits of the choice: the first 8 choices have equal patterns, and for two
    // cameras the 64 choices are all pairs.
    pub(crate) fn patterns(&self) -> [u8; CAMERAS] {
        let a = self.choice % 8;
        let b = self.choice / 8 % 8;
        let mut patterns = [0; CAMERAS];
        for (q, pattern) in patterns.iter_mut().enumerate() {
            // It fits: `try_from` would be a Result that is never an Err.
            *pattern = ((a + b * q) % 8) as u8;
        }
        patterns
    }
}
