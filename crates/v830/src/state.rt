// What the registers of a V830 mean, and whether its record is one that there is.
ghost use Rattle.std.specs.Prelude.{◌≡◌};
ghost use Rattle.v830.specs.State.{is_set, mode, settings, explained, formed, power_on};

use crate::{Tallies, V830};
use layout::Settings;
use meb::Store;

// How triggers are made: not at all, at random or periodically.
#[derive(Clone, Copy, PartialEq, Eq, Debug)]
pub enum Mode {
    Disabled,
    Random,
    Periodical,
}

impl Mode {
    // The mode that bits 0 and 1 of Control give; both of them 1 give none.
    pub(crate) fn of(control: u8) -> Option<Mode>
        ensures { result ≡ mode control }
    {
        match control % 4 {
            0 => Some(Mode::Disabled),
            1 => Some(Mode::Random),
            2 => Some(Mode::Periodical),
            _ => None,
        }
    }
}

// Whether a bit of Control is set.
pub(crate) fn is_set(bit: u32, control: u8) -> bool
    ensures { result ≡ is_set bit control }
{
    bit <= 31 && (control as u32 >> bit) % 2 == 1
}

impl V830 {
    // As it is at power-on, with this Control.
    pub(crate) fn power_on(control: u8, geo: u32, capacity: u32) -> V830
        ensures { result ≡ power_on control geo capacity }
    {
        V830 {
            counts: [0; 32],
            enable: 4294967295,
            geo,
            store: Store::empty(capacity),
            tallies: Tallies { triggers: 0 },
            control,
            veto: false,
        }
    }

    // The layout of the events that it stores.
    pub(crate) fn settings(self) -> Settings
        ensures { result ≡ settings self }
    {
        Settings {
            header: is_set(5, self.control),
            short: is_set(2, self.control),
            enable: self.enable,
        }
    }

    // Whether the words stored can be those of events, which have words where a channel is enabled or there is a
    // header.
    fn is_explained(self) -> bool
        ensures { result ≡ explained self }
    {
        self.store.stored.0 == 0 || self.enable != 0 || is_set(5, self.control)
    }

    // Whether a record is not malformed.
    #[tactic(auto, unfolding(crate::specs::State::formed))]
    pub(crate) fn is_formed(self) -> bool
        ensures { result ≡ formed self }
    {
        self.geo <= 31
            && self.store.fits()
            && self.is_explained()
            && Mode::of(self.control).is_some()
    }
}
