// The reader of a book: the whole book is judged before an entry is given.
#![tactic(auto)]

ghost use Rattle.std.specs.Prelude.{◌≡◌, false, ◌&&◌, ◌+◌, ◌*◌, ◌≤◌, ◌<◌, length, IfSome, IfNone, IfOk, IfErr};
ghost use Rattle.point.specs.Paper.{is_zero};
ghost use Rattle.conic.specs.Form.{Δ};
ghost use Rattle.conic.specs.Base.{in_range};
ghost use Rattle.book.specs.Kinds.{kind_number};
ghost use Rattle.book.specs.Layout.{body_length, count_of};
ghost use Rattle.book.specs.Reader.{bodies_end, every_below, layout_holds, is_right_point, is_right, body_holds};
ghost use Rattle.book.specs.Reader.{stored, content_of, ReaderPromise};
ghost use Rattle.book.specs.Steps.{EntryRight, EntriesRight, LayoutRight, BodyAt, Contents};

use book::kind::Kind;
use book::{Stored, bytes, layout};
use conic::base;
use conic::conic::Conic;
use point::Point;
use point::paper::Refusal;
use solve::Reason;

// Where the body of entry i ends; none if its kind isn't 1 to 4, or its offset isn't the start, where the bodies
// before it end.
// By index: Layout says entry i by its place in the book (kind_at, offset_at), and a slice of entries would need it
// said twice.
fn body_end(book: &[u8], i: usize, start: usize) -> Option<usize>
    requires { (5 + 3 * i ≤ length book.now) × (start ≡ bodies_end book.now i) × (start ≤ 65_536) }
    ensures some { IfSome result (λ end. EntryRight book.now i × (end ≡ bodies_end book.now (i + 1))) }
    ensures none { IfNone result (¬ EntryRight book.now i) }
{
    let kind = Kind::try_from(book[2 + 3 * i]).ok()?;
    if bytes::number_at::<2>(book, 3 + 3 * i) != start as u64 {
        return None;
    }
    Some(start + kind.body_length())
}

// Where the last body ends, if each entry holds: a step for each.
fn last_end(book: &[u8], count: usize) -> Option<usize>
    requires { Contents book.now count }
    ensures some { IfSome result (λ end. EntriesRight book.now × (end ≡ bodies_end book.now count)) }
    ensures none { IfNone result (¬ EntriesRight book.now) }
{
    let mut end = 2 + 3 * count;
    for i in 0..count {
        end = body_end(book, i, end)?;
    }
    Some(end)
}

// Whether the layout holds: a step for each entry.
fn layout_holds(book: &[u8]) -> bool
    ensures { result ≡ layout_holds book.now }
{
    if book.len() < 2 {
        return false;
    }
    let count = bytes::number_at::<2>(book, 0) as usize;
    if count > layout::COUNT_LIMIT || book.len() < 2 + 3 * count {
        return false;
    }
    last_end(book, count) == Some(book.len())
}

// Whether a conic is in range and not degenerate, and a point is a legal base on it. Nothing is solved.
fn is_right_point(h: Conic, p: Point) -> bool
    ensures { result ≡ is_right_point h p }
{
    base::judge(h, p).is_ok()
}

// Whether a conic is in range and degenerate. Nothing is solved. To compare what judge_conic answers would be no
// plainer: its proof goes through fourteen cases of the derived equality.
fn is_degenerate(h: Conic) -> bool
    ensures { result ≡ in_range h && is_zero (Δ h) }
{
    h.in_range() && h.determinant() == 0
}

// A body in a book.
#[derive(Clone, Copy)]
struct Body<'a> {
    book: &'a [u8],
    kind: Kind,
    at: usize,
    ghost within: { at + body_length (kind_number kind) ≤ length book.now },
}

impl<'a> Body<'a> {
    // The conic with its stored answer.
    fn content(&self) -> (Conic, Stored)
        ensures { stored result.0 result.1 ≡ content_of (kind_number self.now.kind) self.now.book.now self.now.at }
    {
        let h = layout::conic_at(self.book, self.at);
        match self.kind {
            Kind::Point => (h, Some(Ok(layout::point_at(self.book, self.at + 6)))),
            Kind::Sign => (h, Some(Err(Reason::Sign))),
            Kind::Prime => {
                let prime = bytes::number_at::<4>(self.book, self.at + 6);
                (h, Some(Err(Reason::Prime(prime))))
            },
            Kind::Degenerate => (h, None),
        }
    }

    // Whether it is right: kinds 2 and 3 are solved.
    fn is_right(&self) -> bool
        ensures { result ≡ is_right (kind_number self.now.kind) self.now.book.now self.now.at }
    {
        let (h, stored) = self.content();
        match stored {
            Some(Ok(p)) => is_right_point(h, p),
            Some(Err(reason)) => solve::solve(h) == Ok(Err(reason)),
            None => is_degenerate(h),
        }
    }
}

// A book whose layout holds.
#[derive(Clone, Copy)]
struct Book<'a> {
    bytes: &'a [u8],
    ghost laid: { LayoutRight bytes.now },
}

impl<'a> Book<'a> {
    // Refusal 12 where the layout doesn't hold: a step for each entry.
    fn new(bytes: &'a [u8]) -> Result<Self, Refusal>
        ensures ok { IfOk result (λ b. b.bytes.now ≡ bytes.now) }
        ensures err { IfErr result (λ e. (e ≡ Refusal.Layout) × (layout_holds bytes.now ≡ false)) }
    {
        if layout_holds(bytes) {
            Ok(Book { bytes })
        } else {
            Err(Refusal::Layout)
        }
    }

    // The number of conics.
    fn count(&self) -> usize
        ensures { result ≡ count_of self.now.bytes.now }
    {
        bytes::number_at::<2>(self.bytes, 0) as usize
    }

    // The body of a conic: its entry, by its place as in body_end, has the kind and says where it is.
    fn body(&self, i: usize) -> Body<'a>
        requires { i < count_of self.now.bytes.now }
        ensures { (result.book.now ≡ self.now.bytes.now) × BodyAt self.now.bytes.now i result.kind result.at }
    {
        let kind = Kind::try_from(self.bytes[2 + 3 * i]).unwrap();
        let at = bytes::number_at::<2>(self.bytes, 3 + 3 * i) as usize;
        Body {
            book: self.bytes,
            kind,
            at,
        }
    }

    // Whether every body is right: solves each conic of kinds 2 and 3.
    fn bodies_hold(&self) -> bool
        ensures { result ≡ every_below (body_holds self.now.bytes.now) (count_of self.now.bytes.now) }
    {
        (0..self.count()).all(|i| self.body(i).is_right())
    }
}

// Judges the whole book first: a step for each entry, and each conic of kinds 2 and 3 is solved.
pub fn read(book: &[u8], number: u64) -> Result<(Conic, Stored), Refusal>
    ensures { ReaderPromise book.now number result }
{
    let laid = Book::new(book)?;
    if !laid.bodies_hold() {
        return Err(Refusal::Body);
    }
    if number >= laid.count() as u64 {
        return Err(Refusal::Number);
    }
    Ok(laid.body(number as usize).content())
}
