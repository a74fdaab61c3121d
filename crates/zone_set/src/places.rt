ghost use Rattle.std.specs.Prelude.{◌≡◌, ◌<◌, ◌++◌, ◌∷◌, [], IfOk, IfSome, OnErr, OnOk};
ghost use Rattle.zone_set.specs.Machine.Places.{far_left, next_place, step_from, IsStepTo};

use std::alloc::{AllocError, Global};
use std::marker::Model;
use zone_rdata::Place;

/// What stands for a step where there is none: the place is kept whole, apart from the steps.
const FAR: u8 = 255;

/// Where records stand in an input, in the order in which they came. Mostly that is a few lines or
/// octets after the record before, which one octet tells.
#[derive(Drop)]
pub(crate) struct Places {
    /// The last place, or that of the whole input before there is one.
    last: Place,
    /// From each place to the next, the first from that of the whole input.
    steps: Vec<u8>,
    /// The places to which no step leads.
    far: Vec<Place>,
}

impl Model for Places {
    ghost use Rattle.std.specs.Prelude.{List};
    ghost use Rattle.zone_rdata.specs.declared.fault.Place.{Place};
    ghost use Rattle.zone_rdata.specs.declared.fault.Place.TheVariants.{Whole};
    ghost use Rattle.zone_set.specs.Machine.Places.{stepped, LeadTo};

    ghost Value = { List Place };

    ghost view = { λ p. stepped Whole p.steps.items p.far.items };

    ghost invariant = { λ p. LeadTo Whole p.steps.items p.far.items p.last };
}

impl Places {
    /// No place.
    pub(crate) fn new(alloc: Global) -> Places
        ensures { result ≡ [] }
    {
        Places {
            last: Place::Whole,
            steps: Vec::new(alloc),
            far: Vec::new(alloc),
        }
    }

    /// Appends a place.
    ///
    /// # Errors
    ///
    /// `AllocError` where memory is refused. The places are unchanged.
    pub(crate) fn push(&mut self, place: Place) -> Result<(), AllocError>
        ensures pushed { OnOk result (self.new ≡ self.old ++ place ∷ []) }
        ensures unchanged { OnErr result (self.new ≡ self.old) }
    {
        self.steps.reserve(1)?;
        let step = step_or_keep(self.last, place, &mut self.far)?;
        self.steps.push_reserved(step);
        self.last = place;
        Ok(())
    }

    /// The places in order.
    pub(crate) fn iter(&self) -> PlacesLeft<'_>
        ensures { result ≡ self.now }
    {
        PlacesLeft {
            last: Place::Whole,
            steps: self.steps.as_slice(),
            far: self.far.as_slice(),
        }
    }
}

/// The step from the last place to the next one. Where there is none, that is kept as a far place.
///
/// # Errors
///
/// `AllocError` where memory is refused. The far places are unchanged.
fn step_or_keep(last: Place, place: Place, far: &mut Vec<Place>) -> Result<u8, AllocError>
    ensures kept { IfOk result (λ step. IsStepTo last place far.old.items step far.new.items) }
    ensures unchanged { OnErr result (far.new.items ≡ far.old.items) }
{
    if let Some(step) = step_between(last, place) {
        return Ok(step);
    }
    far.push(place)?;
    Ok(FAR)
}

/// The step that leads from one place to another, if one does.
fn step_between(last: Place, place: Place) -> Option<u8>
    ensures { IfSome result (λ step. (step < 255) × (step_from last step ≡ place)) }
{
    match (last, place) {
        (Place::Line(from), Place::Line(to)) => short_step(to.checked_sub(from)?),
        (Place::Message(message, from), Place::Message(number, to)) if message == number => {
            short_step(to.checked_sub(from)? as u64)
        }
        _ => None,
    }
}

/// A distance as a step, where it is short.
fn short_step(distance: u64) -> Option<u8>
    ensures { IfSome result (λ step. (step < 255) × (step ≡ distance)) }
{
    if distance < FAR as u64 {
        Some(distance as u8)
    } else {
        None
    }
}

/// Places that are still to come. Contracts see them.
#[derive(Drop)]
pub(crate) struct PlacesLeft<'p> {
    last: Place,
    steps: &'p [u8],
    far: &'p [Place],
}

impl<'p> Model for PlacesLeft<'p> {
    ghost use Rattle.std.specs.Prelude.{List};
    ghost use Rattle.zone_rdata.specs.declared.fault.Place.{Place};
    ghost use Rattle.zone_set.specs.Machine.Places.{stepped};

    ghost Value = { List Place };

    ghost view = { λ p. stepped p.last p.steps.now p.far.now };
}

impl<'p> Iterator for PlacesLeft<'p> {
    type Item = Place;

    ghost use Rattle.std.specs.Iterator.{YieldsFirst, item_count};

    ghost next_gives = { YieldsFirst (λ s. s) };

    ghost remaining = { item_count (λ s. s) };

    fn next(&mut self) -> Option<Place> {
        let (step, steps) = self.steps.split_first()?;
        let (next, far) = next_of(self.last, *step, self.far);
        self.last = next;
        self.steps = steps;
        self.far = far;
        Some(next)
    }
}

/// The place that a step leads to, and the far places after it.
fn next_of(last: Place, step: u8, far: &[Place]) -> (Place, &[Place])
    ensures place { result.0 ≡ next_place last step far.now }
    ensures left { result.1.now ≡ far_left step far.now }
{
    if step == FAR {
        return match far.split_first() {
            Some((place, left)) => (*place, left),
            None => (Place::Whole, far),
        };
    }
    (after(last, step), far)
}

/// The place so many lines or octets after another.
fn after(last: Place, step: u8) -> Place
    ensures { result ≡ step_from last step }
{
    match last {
        Place::Line(number) => Place::Line(number.saturating_add(step as u64)),
        Place::Message(number, offset) => {
            Place::Message(number, offset.saturating_add(step as usize))
        }
        Place::Whole => Place::Whole,
    }
}
