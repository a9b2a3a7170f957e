//! The parameter sets that a stream has given so far (7.4.1.2.1): sequence parameter sets by seq_parameter_set_id, and picture
//! parameter sets by pic_parameter_set_id.
//!
//! A set replaces the earlier one of its id, and no other. `activate` makes the sets that a slice names the active ones, and
//! refuses a sequence parameter set that has changed where no IDR picture begins. All memory is taken by `Sets::new`; nothing
//! else takes any. A set is judged when it is read, and not here: each that is kept is one that some unit may give.
#![tactic(auto)]

ghost use Rattle.std.specs.Prelude.{◌≡◌, ℕ, ◌<◌, ◌≤◌, ◌↔◌, ◌⊎◌, true, IsTrue, IsFalse, IfOk, OnErr, Option, Some, None, Ok, Err};
ghost use Rattle.std.specs.Option.{option_copied, option_map};
ghost use Rattle.h264_sets.specs.Sets.{set_at, no_sets, with_sps, with_pps, sps_of, pps_of, pair_of, with_active, naming, IsActive, IsPutSps, IsPutPps};
ghost use Rattle.h264_sets.specs.Sets.{AreAccepted, NameIds};
ghost use Rattle.h264_sps.specs.Usable.{is_accepted};
ghost use Rattle.h264_base.specs.declared.rule.Rule.TheVariants.{NoSet, SetChanged};
ghost use Rattle.h264_base.specs.declared.stop.Stop.TheVariants.{No};
ghost use Rattle.h264_sets.specs.declared.SetPair.{SetPair};

use h264_base::{Rule, Stop};
use h264_pps::Pps;
use h264_sps::sps::Sps;
use std::alloc::{AllocError, Global};
use std::marker::Model;

/// How many ids there are.
const SPS_IDS: usize = 32;

const PPS_IDS: usize = 256;

/// The set in a place, if there is one.
fn pps_at(sets: &[Option<Pps>], id: u32) -> Option<Pps>
    ensures { result ≡ set_at sets.now id }
{
    if id as usize >= sets.len() {
        return None;
    }
    sets[id as usize]
}

/// The set in a place, if there is one.
fn sps_at(sets: &[Option<Sps>], id: u32) -> Option<&Sps>
    ensures { option_copied result ≡ set_at sets.now id }
{
    if id as usize >= sets.len() {
        return None;
    }
    sets[id as usize].as_ref()
}

/// A picture parameter set, and the sequence parameter set that it names.
#[derive(Clone, Copy)]
pub struct SetPair {
    pub pps: Pps,
    pub sps: Sps,
}

/// Another picture parameter set goes with the active sequence parameter set, which is not copied again.
fn name_pps(active: &mut Option<SetPair>, pps: Pps)
    ensures { active.new ≡ option_map (naming pps) active.old }
{
    if let Some(pair) = active {
        pair.pps = pps;
    }
}

/// The sets by id, and the active pair. Each set that is kept is one that some unit may give.
#[derive(Drop)]
pub struct Sets {
    sps: Vec<Option<Sps>>,
    pps: Vec<Option<Pps>>,
    active: Option<SetPair>,
}

impl Model for Sets {
    ghost use Rattle.std.specs.Prelude.{◌≡◌, length};
    ghost use Rattle.h264_sets.specs.Sets.{Maps, AreAccepted, NameIds};

    ghost Value = { Maps };

    ghost view = { λ s. record { sps = s.sps.items; pps = s.pps.items; active = s.active } };

    ghost invariant = { λ s. (length s.sps.items ≡ 32) × (length s.pps.items ≡ 256) × AreAccepted s.sps.items × NameIds s.pps.items };
}

impl Sets {
    /// No set yet, with the places of all ids.
    pub fn new(alloc: Global) -> Result<Sets, AllocError>
        ensures { IfOk result (λ s. s ≡ no_sets) }
    {
        let sps = vec![in alloc; None; SPS_IDS]?;
        let pps = vec![in alloc; None; PPS_IDS]?;
        Ok(Sets {
            sps,
            pps,
            active: None,
        })
    }

    /// Keeps a sequence parameter set, as it was read, in the place of the one that had its id.
    pub fn put_sps(&mut self, sps: Sps)
        requires id { sps.seq_parameter_set_id ≤ 31 }
        requires accepted { is_accepted sps ≡ true }
        ensures replaced { self.new ≡ with_sps self.old sps }
        ensures named { IsPutSps self.old self.new sps }
    {
        self.sps[sps.seq_parameter_set_id as usize] = Some(sps);
    }

    /// Keeps a picture parameter set, as it was read, in the place of the one that had its id.
    pub fn put_pps(&mut self, pps: Pps)
        requires id { pps.pic_parameter_set_id ≤ 255 }
        requires names { pps.seq_parameter_set_id ≤ 31 }
        ensures replaced { self.new ≡ with_pps self.old pps }
        ensures named { IsPutPps self.old self.new pps }
    {
        self.pps[pps.pic_parameter_set_id as usize] = Some(pps);
    }

    /// The sequence parameter set of this id, if there was one.
    pub fn sps(&self, seq_parameter_set_id: u32) -> Option<&Sps>
        requires { seq_parameter_set_id ≤ 31 }
        ensures found { option_copied result ≡ sps_of self.now seq_parameter_set_id }
        ensures accepted { AreAccepted self.now.sps }
    {
        self.sps[seq_parameter_set_id as usize].as_ref()
    }

    /// The picture parameter set of this id, if there was one.
    pub fn pps(&self, pic_parameter_set_id: u32) -> Option<&Pps>
        requires { pic_parameter_set_id ≤ 255 }
        ensures found { option_copied result ≡ pps_of self.now pic_parameter_set_id }
        ensures names { NameIds self.now.pps }
    {
        self.pps[pic_parameter_set_id as usize].as_ref()
    }

    /// The pair that was activated last.
    pub fn active(&self) -> Option<&SetPair>
        ensures { option_copied result ≡ self.now.active }
    {
        self.active.as_ref()
    }

    /// The picture parameter set of this id with the sequence parameter set that it names, if both are there.
    pub fn pair(&self, pic_parameter_set_id: u32) -> Option<SetPair>
        ensures { result ≡ pair_of self.now pic_parameter_set_id }
    {
        let pps = pps_at(self.pps.as_slice(), pic_parameter_set_id)?;
        let sps = sps_at(self.sps.as_slice(), pps.seq_parameter_set_id)?;
        Some(SetPair { pps, sps: *sps })
    }

    /// Whether this is the content of the active sequence parameter set.
    fn is_active(&self, sps: &Sps) -> bool
        ensures { IsTrue result ↔ IsActive self.now sps.now }
    {
        match &self.active {
            Some(pair) => pair.sps == *sps,
            None => false,
        }
    }

    /// The pair of this pic_parameter_set_id becomes the active one. Apart, so that a slice that keeps the active pair does not
    /// pay for the place of another.
    #[inline(never)]
    fn replace(&mut self, pic_parameter_set_id: u32)
        ensures { self.new ≡ record self.old { active = pair_of self.old pic_parameter_set_id } }
    {
        self.active = self.pair(pic_parameter_set_id);
    }

    /// Makes the sets of a slice the active ones. `idr`: the slice begins an IDR picture, which may change the sequence
    /// parameter set; any other slice needs one of the active one's id and content.
    ///
    /// No: SetChanged at `bit`, that of the slice's pic_parameter_set_id, or NoSet there where a set is missing. Nothing has
    /// changed then.
    pub fn activate(&mut self, pic_parameter_set_id: u32, bit: u64, idr: bool) -> Result<(), Stop>
        ensures missing { pair_of self.old pic_parameter_set_id ≡ None → result ≡ Err (No bit NoSet) }
        ensures ok { (pair : SetPair) → pair_of self.old pic_parameter_set_id ≡ Some pair → (IsTrue idr ⊎ IsActive self.old pair.sps) →
            (result ≡ Ok tt) × (self.new ≡ with_active self.old pair) }
        ensures changed { (pair : SetPair) → pair_of self.old pic_parameter_set_id ≡ Some pair → IsFalse idr → (IsActive self.old pair.sps → ⊥) →
            result ≡ Err (No bit SetChanged) }
        ensures kept { OnErr result (self.new ≡ self.old) }
    {
        let missing = Stop::No {
            bit,
            rule: Rule::NoSet,
        };
        let Some(pps) = pps_at(self.pps.as_slice(), pic_parameter_set_id) else {
            return Err(missing);
        };
        let Some(sps) = sps_at(self.sps.as_slice(), pps.seq_parameter_set_id) else {
            return Err(missing);
        };
        if self.is_active(sps) {
            name_pps(&mut self.active, pps);
            return Ok(());
        }
        if !idr {
            return Err(Stop::No {
                bit,
                rule: Rule::SetChanged,
            });
        }
        self.replace(pic_parameter_set_id);
        Ok(())
    }
}
