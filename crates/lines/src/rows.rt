// A row of fixed size that fills from the front. No `ArrayVec`: a state is copied, and the promises tell what stands after the bytes that have come.
#![tactic(auto)]

ghost use Rattle.std.specs.Prelude.{◌≡◌, ◌≤◌, ◌==◌, [], take, replicate};
ghost use Rattle.lines.specs.Rows.{filled, all_pushed};

// The bytes that have come stand at the front, and after them what was there before.
#[derive(Clone, Copy)]
pub struct Row<const N: usize> {
    bytes: [u8; N],
    count: usize,
}

impl<const N: usize> Row<N> {
    // Nothing has come.
    pub(crate) fn new() -> Self
        ensures { result ≡ filled (replicate N 0) [] }
    {
        Row {
            bytes: [0; N],
            count: 0,
        }
    }

    // So many bytes have come.
    pub(crate) fn holding(bytes: [u8; N], count: usize) -> Self
        requires { count ≤ N }
        ensures { result ≡ record { bytes = bytes.entry; count = count } }
    {
        Row { bytes, count }
    }

    pub(crate) fn is_empty(&self) -> bool
        ensures { result ≡ (self.now.count == 0) }
    {
        self.count == 0
    }

    // The bytes that have come.
    pub fn as_slice(&self) -> &[u8]
        ensures { result.now ≡ take self.now.count self.now.bytes }
    {
        &self.bytes[..self.count.min(N)]
    }

    // The whole row.
    pub fn whole(&self) -> [u8; N]
        ensures { result ≡ self.now.bytes }
    {
        self.bytes
    }

    // Bytes more; what a full row has no room for is dropped.
    pub(crate) fn push_all(&mut self, bytes: &[u8])
        ensures { self.new ≡ all_pushed self.old bytes.now }
    {
        let from = self.count.min(N);
        let fit = bytes.len().min(N - from);
        let row = &mut self.bytes[..];
        row[from..from + fit].copy_from_slice(&bytes[..fit]);
        self.count += fit;
    }

    // Nothing has come; what was there stays behind.
    pub(crate) fn clear(&mut self)
        ensures { self.new ≡ record self.old { count = 0 } }
    {
        self.count = 0;
    }
}
