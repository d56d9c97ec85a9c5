// The buffers of a call, each at the start of the room for its kind.
ghost use Rattle.std.specs.Prelude.{◌≤◌};

pub(crate) const MOST: usize = 16384;

#[derive(Drop)]
pub(crate) struct Buffer<T: Copy> {
    items: [T; MOST],
    len: usize,
    ghost inside: { len ≤ 16384 },
}

impl<T: Copy> Buffer<T> {
    fn new(zero: T) -> Buffer<T> {
        Buffer {
            items: [zero; MOST],
            len: 0,
        }
    }

    // Makes room for so many numbers, or as many as there is room for.
    pub(crate) fn resize(&mut self, len: usize) {
        self.len = len.min(MOST);
    }

    pub(crate) fn as_slice(&self) -> &[T] {
        &self.items[..self.len]
    }

    pub(crate) fn as_mut_slice(&mut self) -> &mut [T] {
        let len = self.len;
        let items = &mut self.items;
        &mut items[..len]
    }
}

#[derive(Drop)]
pub(crate) struct Buffers {
    pub(crate) shorts: Buffer<i16>,
    pub(crate) words: Buffer<i32>,
    pub(crate) one: Buffer<u16>,
    pub(crate) two: Buffer<u16>,
}

impl Buffers {
    pub(crate) fn new() -> Buffers {
        Buffers {
            shorts: Buffer::new(0),
            words: Buffer::new(0),
            one: Buffer::new(0),
            two: Buffer::new(0),
        }
    }
}
