// The book for programs in C and in Rust. It lies in the caller's memory: one function makes an empty book there, the other takes a frame, lends
// the rest on, and leaves the next book in its place. The names are the whole program's, as in C, so all begin with `keybook`.
#![tactic(auto)]

ghost use Rattle.std.specs.Prelude.{◌≡◌};
ghost use Rattle.std.specs.Borrow.{full_share, sem};
ghost use Rattle.std.specs.Mem.{type_size};
ghost use Rattle.std.specs.Ptr.{lies_at, room_at};
ghost use denote.Memory.{lone};
ghost use prog.Memory.{align};
ghost use Rattle.rules.specs.Pages.{empty_book};
ghost use Rattle.rules.specs.Replies.{reply_bytes};
ghost use Rattle.rules.specs.Rules.{call};
ghost use Rattle.book.specs.contracts.Book.{the_row};
ghost use Rattle.book.specs.declared.Book.{Book};
ghost use Rattle.book.specs.Pages.{pages, bound};

use book::Book;
use book::replies::reply_bytes;
use figures::limits::REPLY_BYTES;

// How many bytes a book takes, and how it is aligned: what the caller has to lend.
#[unsafe(no_mangle)]
pub extern "C" fn keybook_size() -> usize
    ensures { result ≡ type_size the_row }
{
    size_of::<Book>()
}

#[unsafe(no_mangle)]
pub extern "C" fn keybook_align() -> usize
    ensures { result ≡ align (lone the_row.mir) }
{
    align_of::<Book>()
}

// The book comes by a raw pointer, since no reference to what holds an enum crosses to C. `lies_at` says what a reference's type would say: that a
// book lies there.
#[unsafe(no_mangle)]
pub unsafe extern "C" fn keybook_empty(book: *mut Book)
    requires* { sem 𝓛 (room_at the_row book) }
    ensures* { sem 𝓛 (lies_at the_row full_share book (bound empty_book)) }
{
    *book = Book::empty();
}

// One call: a byte string, the lent key buffer and the lent reply.
#[unsafe(no_mangle)]
pub unsafe extern "C" fn keybook_call(
    book: *mut Book,
    frame: &[u8],
    key: &mut [u8],
    reply: &mut [u8; REPLY_BYTES],
)
    ghost held: { Book }
    requires* { sem 𝓛 (lies_at the_row full_share book held) }
    ensures* book { sem 𝓛 (lies_at the_row full_share book (bound (call (pages held) frame.now key.old).book)) }
    ensures key { key.new ≡ (call (pages held) frame.now key.old).buffer }
    ensures reply { reply.new ≡ reply_bytes (call (pages held) frame.now key.old).reply }
{
    call_in_place(&mut *book, frame, key, reply)
}

fn call_in_place(book: &mut Book, frame: &[u8], key: &mut [u8], reply: &mut [u8; REPLY_BYTES])
    ensures book { pages book.new ≡ (call (pages book.old) frame.now key.old).book }
    ensures key { key.new ≡ (call (pages book.old) frame.now key.old).buffer }
    ensures reply { reply.new ≡ reply_bytes (call (pages book.old) frame.now key.old).reply }
{
    let answer = book.serve(frame, key);
    *reply = reply_bytes(answer);
}
