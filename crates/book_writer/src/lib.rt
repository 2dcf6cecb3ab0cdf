// The writer of a book: the list is judged first, and no byte is written before the book is known to fit.
#![tactic(auto)]

ghost use Rattle.std.specs.Prelude.{◌∷◌, ◌++◌, ◌≡◌, ◌+◌, ◌≤◌, true, ltb, length, IfOk, IfErr};
ghost use Rattle.std.proofs.lemmas.List.Edits.{sets};
ghost use Rattle.point.specs.Paper.{point, point_limit};
ghost use Rattle.point.specs.Sizes.{PointWithin};
ghost use Rattle.solve.specs.Answer.{solved};
ghost use Rattle.solve.specs.Solve.{solve_of};
ghost use Rattle.book.specs.Bytes.{bytes};
ghost use Rattle.book.specs.Kinds.{kind_number};
ghost use Rattle.book.specs.Layout.{count_limit, kind_of, coefficients, added, conic_at};
ghost use Rattle.book.specs.Writer.{book_of, conics_of, all_in_range, wrong_list, WriterPromise};
ghost use Rattle.book.specs.Steps.{AddedFits, ConicFits, ConicPut, BookPut, RightList, conics_in};

use book::kind::Kind;
use book::{bytes, layout};
use point::Point;
use point::paper::Refusal;
use solve::{Answer, Reason};

// The kind of an answer: three tests.
fn kind_of(answer: Result<Answer, Refusal>) -> Kind
    ensures { kind_number result ≡ kind_of (solved answer) }
{
    match answer {
        Ok(Ok(_)) => Kind::Point,
        Ok(Err(Reason::Sign)) => Kind::Sign,
        Ok(Err(Reason::Prime(_))) => Kind::Prime,
        Err(_) => Kind::Degenerate,
    }
}

// A place stands beside the book, here and below: each clause says what the whole book is after the step.
// The three numbers of a point.
fn put_point(book: &mut [u8], at: usize, p: Point)
    requires { (at + 12 ≤ length book.old) × PointWithin point_limit p }
    ensures { book.new ≡ sets book.old at (added (point p)) }
{
    bytes::put_signed(book, at, p.x);
    bytes::put_signed(book, at + 4, p.y);
    bytes::put_signed(book, at + 8, p.z);
}

// What an answer adds to the coefficients.
fn put_added(book: &mut [u8], at: usize, answer: Result<Answer, Refusal>)
    requires { AddedFits book.old at (solved answer) }
    ensures { book.new ≡ sets book.old at (added (solved answer)) }
{
    match answer {
        Ok(Ok(p)) => put_point(book, at, p),
        Ok(Err(Reason::Prime(l))) => bytes::put_number::<4>(book, at, l),
        Ok(Err(Reason::Sign)) | Err(_) => {},
    }
}

// An entry: three bytes.
fn put_entry(book: &mut [u8], at: usize, kind: Kind, offset: usize)
    requires { at + 3 ≤ length book.old }
    ensures { book.new ≡ sets book.old at (kind_number kind ∷ bytes 2 offset) }
{
    book[at] = kind as u8;
    bytes::put_number::<2>(book, at + 1, offset as u64);
}

// A body: the coefficients as the list has them, and what the answer adds.
fn put_body(six: &[u8; 6], book: &mut [u8], at: usize, answer: Result<Answer, Refusal>)
    requires { AddedFits book.old (at + 6) (solved answer) }
    ensures { book.new ≡ sets book.old at (coefficients (conic_at six.now 0) ++ added (solved answer)) }
{
    bytes::copy(six, 0, 6, book, at);
    put_added(book, at + 6, answer);
}

// The entry and the body of a conic with its answer; where the body ends is returned.
fn put_conic(
    six: &[u8; 6],
    answer: Result<Answer, Refusal>,
    book: &mut [u8],
    entry: usize,
    offset: usize,
) -> usize
    requires { (solved answer ≡ solve_of (conic_at six.now 0))
        × ConicFits book.old entry offset (conic_at six.now 0) }
    ensures { ConicPut book.old entry offset (conic_at six.now 0) result book.new }
{
    let kind = kind_of(answer);
    put_entry(book, entry, kind, offset);
    put_body(six, book, offset, answer);
    offset + kind.body_length()
}

// A list of conics, six bytes each, no more than a book has.
#[derive(Clone, Copy)]
struct List<'a> {
    conics: &'a [[u8; 6]],
    ghost at_most: { length conics.now ≤ count_limit },
}

impl<'a> List<'a> {
    // Refusal 15 where the bytes are no multiple of six, or too many.
    fn new(list: &'a [u8]) -> Result<Self, Refusal>
        ensures ok { IfOk result (λ l. RightList list.now × (conics_in l.conics.now ≡ conics_of list.now)) }
        ensures err { IfErr result (λ e. (e ≡ Refusal.List) × (wrong_list list.now ≡ true)) }
    {
        let (conics, rest) = list.as_chunks::<6>();
        if !rest.is_empty() || conics.len() > layout::COUNT_LIMIT {
            return Err(Refusal::List);
        }
        Ok(List { conics })
    }

    // Whether every conic is in range: a step for each.
    fn all_in_range(&self) -> bool
        ensures { result ≡ all_in_range (conics_in self.now.conics.now) }
    {
        self.conics
            .iter()
            .all(|six| layout::conic_at(six, 0).in_range())
    }

    // The length of the book: solves each conic.
    fn book_length(&self) -> usize
        ensures { result ≡ length (book_of (conics_in self.now.conics.now)) }
    {
        let mut total = 2 + 3 * self.conics.len();
        for six in self.conics {
            let kind = kind_of(solve::solve(layout::conic_at(six, 0)));
            total += kind.body_length();
        }
        total
    }

    // Whether a buffer of a length is too short for the book. Nothing is solved where the longest book fits;
    // elsewhere each conic is solved.
    fn lacks_room(&self, room: usize) -> bool
        ensures { result ≡ ltb room (length (book_of (conics_in self.now.conics.now))) }
    {
        if 2 + self.conics.len() * layout::MOST_FOR_A_CONIC <= room {
            return false;
        }
        room < self.book_length()
    }

    // Writes the book and returns its length: solves each conic.
    fn put_book(&self, book: &mut [u8]) -> usize
        requires { length (book_of (conics_in self.now.conics.now)) ≤ length book.old }
        ensures { BookPut book.old (conics_in self.now.conics.now) result book.new }
    {
        let count = self.conics.len();
        bytes::put_number::<2>(book, 0, count as u64);
        let mut offset = 2 + 3 * count;
        for (i, six) in self.conics.iter().enumerate() {
            let answer = solve::solve(layout::conic_at(six, 0));
            offset = put_conic(six, answer, book, 2 + 3 * i, offset);
        }
        offset
    }
}

// Refusals 15, 1, 14 leave every byte. Solves each conic once where the buffer has room for the longest book of so
// many conics, and twice where it has not.
pub fn write(list: &[u8], book: &mut [u8]) -> Result<usize, Refusal>
    ensures { WriterPromise list.now book.old result book.new }
{
    let conics = List::new(list)?;
    if !conics.all_in_range() {
        return Err(Refusal::Range);
    }
    if conics.lacks_room(book.len()) {
        return Err(Refusal::Room);
    }
    Ok(conics.put_book(book))
}
