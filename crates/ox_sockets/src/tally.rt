//! How often each kind of call has failed or had nothing to give.

use ox_outside::Doorway;

/// The counts. None falls; each stays at the greatest number.
#[derive(Clone, Copy)]
pub(crate) struct Tally {
    pub(crate) door_faults: u64,
    pub(crate) hear_faults: u64,
    pub(crate) show_faults: u64,
    pub(crate) not_yets: u64,
    pub(crate) public_idles: u64,
    pub(crate) operator_idles: u64,
}

impl Tally {
    ghost use Rattle.std.specs.Prelude.{◌≡◌};
    ghost use Rattle.ox_outside.specs.Counts.{NoneFell, Rose};
    ghost use Rattle.ox_sockets.specs.Tallied.{counts_of, no_counts};

    /// Nothing has failed yet.
    pub(crate) fn new() -> Tally
        ensures { counts_of result ≡ no_counts }
    {
        Tally {
            door_faults: 0,
            hear_faults: 0,
            show_faults: 0,
            not_yets: 0,
            public_idles: 0,
            operator_idles: 0,
        }
    }

    /// Nobody waited at the door.
    pub(crate) fn nobody(&mut self, door: Doorway)
        ensures rose { Rose ((counts_of self.old).door_idles door)
            ((counts_of self.new).door_idles door) }
        ensures none_fell { NoneFell (counts_of self.old) (counts_of self.new) }
    {
        match door {
            Doorway::Public => self.public_idles = self.public_idles.saturating_add(1),
            Doorway::Operator => self.operator_idles = self.operator_idles.saturating_add(1),
        }
    }

    /// A door failed.
    pub(crate) fn door_failed(&mut self)
        ensures rose { Rose self.old.door_faults self.new.door_faults }
        ensures none_fell { NoneFell (counts_of self.old) (counts_of self.new) }
    {
        self.door_faults = self.door_faults.saturating_add(1);
    }

    /// A link had nothing to give, or took nothing.
    pub(crate) fn not_yet(&mut self)
        ensures rose { Rose self.old.not_yets self.new.not_yets }
        ensures none_fell { NoneFell (counts_of self.old) (counts_of self.new) }
    {
        self.not_yets = self.not_yets.saturating_add(1);
    }

    /// A hearing failed.
    pub(crate) fn hear_failed(&mut self)
        ensures rose { Rose self.old.hear_faults self.new.hear_faults }
        ensures none_fell { NoneFell (counts_of self.old) (counts_of self.new) }
    {
        self.hear_faults = self.hear_faults.saturating_add(1);
    }

    /// A showing failed.
    pub(crate) fn show_failed(&mut self)
        ensures rose { Rose self.old.show_faults self.new.show_faults }
        ensures none_fell { NoneFell (counts_of self.old) (counts_of self.new) }
    {
        self.show_faults = self.show_faults.saturating_add(1);
    }
}
