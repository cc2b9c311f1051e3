ghost use Rattle.std.specs.Prelude.{◌≡◌, ℕ, [], Some, ◌+◌, ◌<◌, ◌≤◌, ◌⊎◌, ◌↔◌, length, take, true, false, IsTrue, IsOk, IsErr, IsErrOf, IfOk, IfSome, OnOk, OnErr, IsSomeAnd, if◌then◌else◌, ◌&&◌, ◌==◌};
ghost use Rattle.std.specs.List.{slice_get};
ghost use Rattle.tray.specs.Buckets.{list_of};
ghost use Rattle.tray.specs.Colours.{ColourFor, IsUncoloured, IsRecoloured, uses_at, moves_at};
ghost use Rattle.tray.specs.declared.tray.Body.TheVariants.{Fixed};
ghost use Rattle.tray.specs.Moves.{StruckOut, TakenIn, contact_of, pos_of, with_pos, contacts_after, answer_of, HasRoom, IsContactOf, IsInItsBucket};
ghost use Rattle.lists.specs.declared.refusal.Refusal.TheVariants.{NoSuchPlace};

use crate::buckets::Buckets;
use arrayvec::ArrayVec;
use lists::refusal::Refusal;
use lists::solver_contact_graph::{ContactRef, GraphPos};
use masks::mask::Mask;

// How many bodies there are: the tray itself and what lies on it.
pub const BODIES: usize = 5;

// How many contacts a tray has room for.
const CONTACTS: usize = 8;

// The bucket of the contacts that found no colour. A number, as `GENERIC_BUCKET` is.
const OVERFLOW: u32 = 128;

// A body is fixed, or it moves and has the colours of its contacts.
#[derive(Clone, Copy)]
pub enum Body {
    Fixed,
    Moving(Mask),
}

// A contact of two bodies: its colour, if it found one, and where its reference stands, if it has not
// been struck out. Bodies go by number, as in the rule book, and not by reference.
#[derive(Clone, Copy, Default)]
pub struct Contact {
    pub bodies: [usize; 2],
    pub color: Option<u32>,
    pub pos: Option<GraphPos>,
}

#[derive(Drop)]
pub struct Tray {
    pub bodies: [Body; BODIES],
    pub contacts: ArrayVec<Contact, CONTACTS>,
    pub buckets: Buckets,
}

impl Tray {
    // An empty tray. Body 0, the tray itself, is fixed.
    pub fn new() -> Tray
        ensures contacts { result.contacts.items ≡ [] }
        ensures lists { (b : ℕ) → list_of result.buckets b ≡ [] }
        ensures fixed { slice_get result.bodies 0 ≡ Some Fixed }
        ensures moving { (b : ℕ) → 0 < b → b < 5 → IsSomeAnd (slice_get result.bodies b) IsUncoloured }
    {
        let moving = Body::Moving(Mask::new());
        Tray {
            bodies: [Body::Fixed, moving, moving, moving, moving],
            contacts: ArrayVec::new(),
            buckets: Buckets::new(),
        }
    }

    // Takes a contact in: colours it against its bodies and puts it into its colour's bucket.
    // Answers its number. The bodies come as two numbers: of an array the clauses would have to say
    // which element they mean, which is no plainer.
    #[tactic(auto, using(crate::proofs::Contacts::slice_get_push))]
    pub fn take_in(&mut self, first: usize, second: usize) -> Result<usize, Refusal>
        ensures taken { IfOk result (λ n. TakenIn self.old n self.new) }
        ensures contact { IfOk result (λ n. IsSomeAnd (contact_of self.new n) (IsContactOf self.old first second)) }
        ensures bucket { IfOk result (λ n. IsSomeAnd (contact_of self.new n) IsInItsBucket) }
        ensures others { IfOk result (λ n. (take n self.new.contacts.items ≡ self.old.contacts.items) × (length self.new.contacts.items ≡ n + 1)) }
        ensures unknown { IsErrOf result NoSuchPlace ↔ ((5 ≤ first) ⊎ (5 ≤ second)) }
        ensures colours { IfOk result (λ n. IsSomeAnd (contact_of self.new n) (λ c. IsRecoloured self.old.bodies self.new.bodies c true)) }
        ensures full { length self.old.contacts.items ≡ 8 → IsErr result }
        ensures accepted { first < 5 → second < 5 → HasRoom self.old → IsOk result }
        ensures refused { OnErr result (self.new ≡ self.old) }
    {
        let first_body = self.bodies.get(first).ok_or(Refusal::NoSuchPlace)?;
        let second_body = self.bodies.get(second).ok_or(Refusal::NoSuchPlace)?;
        if self.contacts.is_full() {
            return Err(Refusal::NoRoom);
        }
        let number = self.contacts.len();
        let color = choose_color(first_body, second_body);
        let pos = self.buckets.insert(
            color.unwrap_or(OVERFLOW),
            ContactRef {
                pair: number as u32,
                ordinal: 0,
            },
        )?;
        let contact = Contact {
            bodies: [first, second],
            color,
            pos: Some(pos),
        };
        self.contacts.push(contact);
        recolor(&mut self.bodies, contact, true);
        Ok(number)
    }

    // Strikes a contact out: the last reference of its bucket moves into the gap, and its contact,
    // whose number is answered, gets that position.
    pub fn strike_out(&mut self, number: usize) -> Result<Option<usize>, Refusal>
        ensures answer { result ≡ answer_of self.old.buckets (pos_of self.old number) }
        ensures lists { OnOk result (StruckOut self.old number self.new) }
        ensures colours { OnOk result (IfSome (contact_of self.old number) (λ c. IsRecoloured self.old.bodies self.new.bodies c false)) }
        ensures contacts { IfOk result (λ moved. self.new.contacts.items ≡ contacts_after self.old.contacts.items number moved (pos_of self.old number)) }
        ensures refused { OnErr result (self.new ≡ self.old) }
    {
        let contact = *self.contacts.get(number).ok_or(Refusal::NoSuchPlace)?;
        let pos = contact.pos.ok_or(Refusal::NoSuchPlace)?;
        let moved = self.buckets.remove(pos)?;
        self.set_pos(number, None);
        recolor(&mut self.bodies, contact, false);
        let moved = moved.map(|contact| contact.pair as usize);
        if let Some(moved) = moved {
            self.set_pos(moved, Some(pos));
        }
        Ok(moved)
    }

    // Says where a contact stands, if it is on the tray.
    fn set_pos(&mut self, number: usize, pos: Option<GraphPos>)
        ensures contacts { self.new.contacts.items ≡ with_pos self.old.contacts.items number pos }
        ensures bodies { self.new.bodies ≡ self.old.bodies }
        ensures buckets { self.new.buckets ≡ self.old.buckets }
    {
        if let Some(contact) = self.contacts.get_mut(number) {
            contact.pos = pos;
        }
    }
}

// Says of those of a contact's bodies that move whether the contact's colour, if it has one, is in use.
fn recolor(bodies: &mut [Body], contact: Contact, used: bool)
    requires { IsTrue used → IfSome contact.color (λ c. c < 128) }
    ensures { IsRecoloured bodies.old bodies.new contact used }
{
    if let Some(color) = contact.color {
        let [first, second] = contact.bodies;
        recolor_one(bodies, first, color, used);
        recolor_one(bodies, second, color, used);
    }
}

fn recolor_one(bodies: &mut [Body], body: usize, color: u32, used: bool)
    requires { IsTrue used → color < 128 }
    ensures colours { (b k : ℕ) → uses_at bodies.new b k ≡ (if (b == body && k == color) && moves_at bodies.old b then used else uses_at bodies.old b k) }
    ensures moving { (b : ℕ) → moves_at bodies.new b ≡ moves_at bodies.old b }
{
    if let Some(Body::Moving(mask)) = bodies.get(body).copied() {
        let changed = if used {
            mask.with(color).unwrap_or(mask)
        } else {
            mask.without(color)
        };
        bodies[body] = Body::Moving(changed);
    }
}

// The colour of a contact of the two bodies, by the colours in use at those that move.
#[tactic(auto, using(masks::proofs::Frees::lowest_like))]
fn choose_color(first: &Body, second: &Body) -> Option<u32>
    ensures { ColourFor first.now second.now result }
{
    match (first, second) {
        (Body::Moving(a), Body::Moving(b)) => a.union(*b).lowest_free(),
        (Body::Moving(mask), Body::Fixed) | (Body::Fixed, Body::Moving(mask)) =>
            mask.highest_free(),
        (Body::Fixed, Body::Fixed) => None,
    }
}
