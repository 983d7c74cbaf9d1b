// What a tile has heard from its senders, and when that makes it pulse.
#![tactic(auto)]

ghost use Rattle.std.specs.Prelude.{◌≡◌, true, ◌<◌};
ghost use Rattle.settings.specs.Settings.{settings_refusal};
ghost use Rattle.rule.specs.Stamp.{unheard_of, stamp_of, code_of, earliest, latest};
ghost use Rattle.senders.specs.Senders.{unheard_all, stamp_fits, fit, neighbour_stamps, unheard, is_heard, heard_by};
ghost use Rattle.senders.specs.Due.{due_code};

use rule::forwarding;
use rule::forwarding::SILENT;
use settings::Settings;

#[derive(Clone, Copy)]
pub struct Senders {
    // How many neighbours there are: 2 or 3.
    pub count: u64,
    // The readings at which own and the neighbours were first heard, or SILENT. Places past the count stay SILENT. No Option: of such
    // numbers the rule takes the least and the most as the earliest and the latest, and polzaintu_board in C holds them so.
    pub stamps: [u64; 4],
}

// The last reading that opens.
pub const LAST: u64 = 4_398_046_511_103;

// The earliest and the latest of the neighbours' stamps.
#[derive(Clone, Copy)]
struct Ends {
    least: u64,
    most: u64,
}

impl Senders {
    // So many neighbours, and nothing heard.
    #[tactic(auto, unfolding(crate::specs::Senders::unheard_all))]
    pub fn unheard_of(count: u64) -> Senders
        ensures { result ≡ unheard_all count }
    {
        Senders {
            count,
            stamps: [SILENT; 4],
        }
    }

    // Whether there are two or three neighbours, and each stamp is a reading or silence. Written out, since an operation on a
    // running tile has no loop.
    #[tactic(auto, unfolding(crate::specs::Senders::fit, crate::specs::Senders::code_at))]
    pub fn fit(self) -> bool
        ensures { result ≡ fit self }
    {
        (2..=3).contains(&self.count)
            && stamp_fits(self.stamps[0])
            && stamp_fits(self.stamps[1])
            && stamp_fits(self.stamps[2])
            && stamp_fits(self.stamps[3])
    }

    // Whether a sender is heard, so that its next pulse is a repeat.
    #[tactic(auto, unfolding(crate::specs::Senders::is_heard, crate::specs::Senders::code_at))]
    pub fn heard(self, place: usize) -> bool
        requires { place < 4 }
        ensures { result ≡ is_heard self place }
    {
        self.stamps[place] != SILENT
    }

    // A pulse: the first of its sender makes the stamp, a repeat changes nothing.
    #[tactic(auto, unfolding(crate::specs::Senders::heard_by))]
    pub fn hear(self, place: usize, reading: u64) -> Senders
        requires { place < 4 }
        ensures { result ≡ heard_by self place reading }
    {
        if self.heard(place) {
            return self;
        }
        let mut stamps = self.stamps;
        stamps[place] = reading;
        Senders {
            count: self.count,
            stamps,
        }
    }

    // The reading P + A, with the unheard as silent; none while two or more are unheard.
    pub fn due(self, settings: Settings) -> Option<u64>
        requires { (settings_refusal settings ≡ 0) × (fit self ≡ true) }
        ensures { result ≡ due_code settings self }
    {
        if 1 < self.unheard() {
            return None;
        }
        let ends = self.ends();
        let fixed = forwarding::adopted(
            settings.unit,
            settings::step(settings.unit, settings.drift),
            self.stamps[0],
            ends.least,
            ends.most,
        );
        Some(fixed.p + settings.hold)
    }

    // How many of own and the neighbours are unheard.
    fn unheard(self) -> u64
        requires { fit self ≡ true }
        ensures { result ≡ unheard self }
    {
        let third = self.count == 3 && self.stamps[3] == SILENT;
        u64::from(self.stamps[0] == SILENT)
            + u64::from(self.stamps[1] == SILENT)
            + u64::from(self.stamps[2] == SILENT)
            + u64::from(third)
    }

    fn ends(self) -> Ends
        requires { fit self ≡ true }
        ensures least { result.least ≡ code_of (earliest (neighbour_stamps self)) }
        ensures most { result.most ≡ code_of (latest (neighbour_stamps self)) }
    {
        let least = self.stamps[1].min(self.stamps[2]);
        let most = self.stamps[1].max(self.stamps[2]);
        if self.count == 2 {
            return Ends { least, most };
        }
        Ends {
            least: least.min(self.stamps[3]),
            most: most.max(self.stamps[3]),
        }
    }
}

#[tactic(auto, unfolding(crate::specs::Senders::stamp_fits))]
fn stamp_fits(stamp: u64) -> bool
    ensures { result ≡ stamp_fits stamp }
{
    stamp == SILENT || stamp <= LAST
}
