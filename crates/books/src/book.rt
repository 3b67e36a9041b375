// The date book: dated entries in rising order of their keys, one entry a key, over lent storage.
ghost use Rattle.std.specs.Prelude.{◌≡◌, ℕ, ◌+◌, ◌-◌, ◌<◌, ◌≤◌, false, [], ◌∷◌, ◌++◌, length, take, drop, is_ok};
ghost use Rattle.books.specs.Books.{found, place_of, booking_answer, after_booking, Rising, MembersDetermine};
ghost use Rattle.books.specs.BookModels.{KeepsStorage, book_entries, book_storage};

use calendar::refusal::Refusal;

// What can be booked: it has a whole number as its key.
pub trait Entry: Copy {
    ghost keyed: { Self → ℕ };

    fn key(&self) -> u32
        ensures { result ≡ keyed self.now };
}

// The first of the places hold the entries, and the others what they held when they were lent.
#[derive(Drop)]
pub struct Book<'a, E> {
    // The places are lent, and there may be more than entries: the library has no heap, so no map.
    places: &'a mut [E],
    count: usize,
}

// The entry with this key, if there is one. All are looked at: that the keys rise is promised by each booking, and no invariant beside a slice lent as `&mut` can.
pub(crate) fn find_among<E: Entry>(entries: &[E], key: u32) -> Option<E>
    ensures { result ≡ found E.Entry.keyed key entries.now }
{
    entries.iter().find(|entry| entry.key() == key).copied()
}

// How many entries in front have smaller keys.
fn place_among<E: Entry>(entries: &[E], key: u32) -> usize
    ensures { result ≡ place_of E.Entry.keyed key entries.now }
{
    entries.iter().take_while(|entry| entry.key() < key).count()
}

// Puts an entry at a place among the first `end`, and moves those behind it one place on.
fn insert_at<E: Entry>(places: &mut [E], at: usize, end: usize, entry: E)
    requires within { at ≤ end }
    requires room { end < length places.old }
    ensures { places.new ≡ (take at places.old ++ entry ∷ take (end - at) (drop at places.old)) ++ drop (end + 1) places.old }
{
    places[end] = entry;
    places[at..end + 1].rotate_right(1);
}

impl<'a, E: Entry> Book<'a, E> {
    // A book that holds no entry. The storage stays as it is until a booking is granted.
    pub fn open(places: &'a mut [E]) -> Book<'a, E>
        ensures entries { book_entries result ≡ [] }
        ensures untouched { book_storage result ≡ places.old }
        ensures named { result.places.ghost_name ≡ places.entry.ghost_name }
    {
        Book { places, count: 0 }
    }

    // The entries that the book holds, where they stand.
    pub fn entries(&self) -> &[E]
        ensures value { result.now ≡ book_entries self.now }
        ensures determined { MembersDetermine E.Entry.keyed }
    {
        let held = self.count.min(self.places.len());
        &self.places[..held]
    }

    // The entry with this key, if there is one.
    pub fn find(&self, key: u32) -> Option<E>
        ensures { result ≡ found E.Entry.keyed key (book_entries self.now) }
    {
        find_among(self.entries(), key)
    }

    // What a booking is to be answered.
    fn judge(&self, entry: E) -> Result<(), Refusal>
        ensures { result ≡ booking_answer E.Entry.keyed (book_entries self.now) (length (book_storage self.now)) entry }
    {
        if self.find(entry.key()).is_some() {
            return Err(Refusal::KeyAlreadyBooked);
        }
        if self.entries().len() >= self.places.len() {
            return Err(Refusal::BookFull);
        }
        Ok(())
    }

    // Books an entry: granted, it stands at its place among the others. Refused, the book and its storage are as they were.
    pub fn add(&mut self, entry: E) -> Result<(), Refusal>
        ensures answer { result ≡ booking_answer E.Entry.keyed (book_entries self.old) (length (book_storage self.old)) entry }
        ensures after { book_entries self.new ≡ after_booking E.Entry.keyed (book_entries self.old) (length (book_storage self.old)) entry }
        ensures rising { Rising E.Entry.keyed (book_entries self.old) → Rising E.Entry.keyed (book_entries self.new) }
        ensures storage { KeepsStorage self.old self.new }
        ensures refused { is_ok result ≡ false → book_storage self.new ≡ book_storage self.old }
    {
        self.judge(entry)?;
        let end = self.entries().len();
        let at = place_among(self.entries(), entry.key());
        insert_at(self.places, at, end, entry);
        self.count = end + 1;
        Ok(())
    }
}
