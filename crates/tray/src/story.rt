use crate::tray::{BODIES, Contact, Tray};
use lists::solver_contact_graph::GraphPos;
use std::{fmt, io};

// The bodies, in the order of their numbers.
#[derive(Clone, Copy)]
enum Thing {
    Tray,
    Gripper,
    Screw,
    Washer,
    Nut,
}

// What they are called, by their numbers, since a contact has its bodies by number.
const NAMES: [&str; BODIES] = ["tray", "gripper", "screw", "washer", "nut"];

// Prints the names of two bodies.
#[derive(Clone, Copy)]
struct Names([usize; 2]);

impl fmt::Display for Names {
    fn fmt<W: fmt::Write>(&self, f: &mut fmt::Formatter<W>) -> fmt::Result {
        let [first, second] = self.0.map(|body| NAMES.get(body).copied().unwrap_or("?"));
        write!(f, "{first}-{second}")
    }
}

// Prints where a contact stands.
#[derive(Clone, Copy)]
struct Standing(GraphPos);

impl fmt::Display for Standing {
    fn fmt<W: fmt::Write>(&self, f: &mut fmt::Formatter<W>) -> fmt::Result {
        let bucket = self.0.bucket();
        let local = self.0.local();
        let word = u32::from(self.0);
        write!(f, "bucket {bucket} place {local} (position {word})")
    }
}

// A tray whose moves are printed.
#[derive(Drop)]
struct PrintedTray<'r, R> {
    rt: &'r R,
    tray: Tray,
}

impl<R: Print> PrintedTray<'_, R> {
    fn take_in(&mut self, first: Thing, second: Thing) -> io::Result<()> {
        let (first, second) = (first as usize, second as usize);
        match self.tray.take_in(first, second) {
            Ok(number) => {
                print!(self.rt; "in  ")?;
                self.show(number)
            }
            Err(refusal) => println!(self.rt; "in  {}: {refusal}", Names([first, second])),
        }
    }

    fn strike_out(&mut self, number: usize) -> io::Result<()> {
        print!(self.rt; "out ")?;
        match self.tray.contacts.get(number) {
            Some(contact) => self.show_name(number, *contact)?,
            None => print!(self.rt; "{number}")?,
        }
        match self.tray.strike_out(number) {
            Ok(None) => println!(self.rt; ": it was the last of its bucket, nothing moved"),
            Ok(Some(moved)) => {
                print!(self.rt; ": into the gap moved ")?;
                self.show(moved)
            }
            Err(refusal) => println!(self.rt; ": {refusal}"),
        }
    }

    fn show(&self, number: usize) -> io::Result<()> {
        match self.tray.contacts.get(number).copied() {
            Some(contact) => self.show_contact(number, contact),
            None => println!(self.rt; "{number}: out"),
        }
    }

    // A contact's number and its two bodies, then where it stands.
    fn show_contact(&self, number: usize, contact: Contact) -> io::Result<()> {
        self.show_name(number, contact)?;
        match contact.pos {
            Some(pos) => println!(self.rt; ": {}", Standing(pos)),
            None => println!(self.rt; ": out"),
        }
    }

    fn show_name(&self, number: usize, contact: Contact) -> io::Result<()> {
        print!(self.rt; "{number} {}", Names(contact.bodies))
    }

    // The lists as they stand, and where each contact says that it stands.
    fn show_lists(&self) -> io::Result<()> {
        for (bucket, list) in self.tray.buckets.lists().iter().enumerate() {
            if !list.as_slice().is_empty() {
                print!(self.rt; "bucket {bucket}:")?;
                for contact in list.as_slice() {
                    print!(self.rt; " {}", contact.pair)?;
                }
                println!(self.rt; "")?;
            }
        }
        for (number, contact) in self.tray.contacts.as_slice().iter().enumerate() {
            self.show_contact(number, *contact)?;
        }
        Ok(())
    }
}

// Plays the story of one small tray, call by call.
pub fn tell(rt: &impl Print) -> io::Result<()> {
    let mut tray = PrintedTray {
        rt,
        tray: Tray::new(),
    };
    tray.take_in(Thing::Screw, Thing::Tray)?;
    tray.take_in(Thing::Washer, Thing::Tray)?;
    tray.take_in(Thing::Gripper, Thing::Tray)?;
    tray.take_in(Thing::Gripper, Thing::Screw)?;
    tray.take_in(Thing::Gripper, Thing::Nut)?;
    tray.take_in(Thing::Screw, Thing::Nut)?;
    tray.take_in(Thing::Tray, Thing::Washer)?;
    tray.strike_out(0)?;
    tray.strike_out(3)?;
    tray.strike_out(0)?;
    tray.take_in(Thing::Nut, Thing::Washer)?;
    tray.show_lists()?;
    long_tray(rt)
}

// A tray so long that a place outgrows its bits in the position's word. Packed unseen, the screw's
// position is the gripper's, and to strike out the screw is to strike out the gripper.
fn long_tray(rt: &impl Print) -> io::Result<()> {
    for (who, place) in [("gripper", 3), ("screw", 4194307)] {
        print!(rt;
            "{who} at bucket 5 place {place}: packed unseen {}, ",
            packed_unseen(5, place)
        )?;
        match GraphPos::new(5, place) {
            Ok(pos) => println!(rt; "position {}", u32::from(pos))?,
            Err(refusal) => println!(rt; "{refusal}")?,
        }
    }
    Ok(())
}

// The word of a position as it comes out where nobody looks whether the place fits.
fn packed_unseen(bucket: u32, local: u32) -> u32 {
    (bucket << 22) | local
}
