//! Bits put together to octets.

ghost use Rattle.hdlc.specs.Assembles.{Assembles};
ghost use Rattle.hdlc.specs.Gathers.{Keeps};
ghost use Rattle.hdlc.specs.Pending.{window_of, IsPending};
ghost use Rattle.raster.specs.Octets.{number};
ghost use Rattle.std.specs.Prelude.{◌≡◌, ◌≤◌, ◌<◌, ◌+◌, ◌/◌, ◌%◌, ◌^◌, ◌++◌, ◌∷◌, [], List, Bool, cond, length};

use arrayvec::ArrayVec;

/// A register of eight bits with one bit more as its most significant; its least significant drops out.
pub fn shifted(register: u8, bit: bool) -> u8
    ensures { result ≡ register / 2 + cond bit 128 0 }
{
    if bit {
        (register >> 1) + 128
    } else {
        register >> 1
    }
}

/// The bits after the whole octets, while more come.
#[derive(Clone, Copy)]
pub struct Pending {
    /// The bits as a number, the first the least significant.
    pub(crate) bits: u32,
    /// How many they are, below eight.
    pub(crate) part: u32,
    /// The eight bits before them.
    pub(crate) last: u8,
}

/// Puts bits together to octets, the least significant bit first, and keeps the first 302 octets: as many as
/// a frame may have with its check sequence.
#[derive(Debug, Drop)]
pub struct OctetBuffer {
    /// How many bits came after the last whole octet.
    pub(crate) part: u8,
    /// The last eight bits, the newest the most significant.
    pub(crate) window: u8,
    /// The first whole octets.
    pub(crate) whole: ArrayVec<u8, 302>,
    /// There were more whole octets than are kept.
    pub(crate) long: bool,
}

impl OctetBuffer {
    /// A buffer without bits.
    #[tactic(auto, unfolding(raster::specs::Octets::octets_of))]
    pub fn new() -> Self
        ensures { Assembles result [] }
    {
        OctetBuffer {
            part: 0,
            window: 0,
            whole: ArrayVec::new(),
            long: false,
        }
    }

    /// A copy, so that a refusal can be undone.
    pub fn copy(&self) -> Self
        ensures { result ≡ self.now }
    {
        let mut whole = ArrayVec::new();
        let _copied = whole.try_extend_from_slice(self.whole.as_slice());
        OctetBuffer {
            part: self.part,
            window: self.window,
            whole,
            long: self.long,
        }
    }

    /// Takes one bit more.
    pub fn push(&mut self, bit: bool)
        ensures { (bits : List Bool) → Assembles self.old bits → Assembles self.new (bits ++ bit ∷ []) }
    {
        self.window = shifted(self.window, bit);
        if self.part < 7 {
            self.part += 1;
            return;
        }
        self.part = 0;
        if self.whole.is_full() {
            self.long = true;
            return;
        }
        self.whole.push(self.window);
    }

    /// Takes one whole octet more, after whole octets.
    pub fn push_octet(&mut self, octet: u8)
        ensures { (front eight : List Bool) → length eight ≡ 8 → number eight ≡ octet
            → Keeps self.old.whole.items self.old.long front → Keeps self.new.whole.items self.new.long (front ++ eight) }
    {
        if self.whole.is_full() {
            self.long = true;
            return;
        }
        self.whole.push(octet);
    }

    /// Takes four whole octets more, after whole octets: 32 bits as a number, the first the least significant.
    pub fn push_four(&mut self, bits: u32)
        ensures { (front word : List Bool) → length word ≡ 32 → number word ≡ bits
            → Keeps self.old.whole.items self.old.long front → Keeps self.new.whole.items self.new.long (front ++ word) }
    {
        let octets = [
            (bits % 256) as u8,
            (bits / 256 % 256) as u8,
            (bits / 65536 % 256) as u8,
            (bits / 16777216) as u8,
        ];
        if self.whole.try_extend_from_slice(&octets).is_ok() {
            return;
        }
        self.push_octet(octets[0]);
        self.push_octet(octets[1]);
        self.push_octet(octets[2]);
        self.push_octet(octets[3]);
    }

    /// The bits after the whole octets.
    pub fn pending(&self) -> Pending
        ensures pending { IsPending result }
        ensures part { result.part ≡ self.now.part % 8 }
        ensures window { window_of result ≡ self.now.window }
    {
        let part = u32::from(self.part % 8);
        let moved = u32::from(self.window) << part;
        Pending {
            bits: moved / 256,
            part,
            last: (moved % 256) as u8,
        }
    }

    /// Sets the bits after the whole octets.
    pub fn end(&mut self, pending: Pending)
        requires { IsPending pending }
        ensures { self.new ≡ record self.old { part = pending.part; window = window_of pending } }
    {
        let both = pending.bits * 256 + u32::from(pending.last);
        self.part = pending.part as u8;
        self.window = ((both >> pending.part) % 256) as u8;
    }

    /// Takes up to eight bits more, after bits that are pending: the lowest `count` bits of a number, the
    /// least significant first. Returns the bits after the whole octets.
    pub fn push_after(&mut self, pending: Pending, value: u8, count: u32) -> Pending
        requires pending { IsPending pending }
        requires few { count ≤ 8 }
        requires fits { value < 2 ^ count }
        ensures pending { IsPending result }
        ensures bits { (bits more : List Bool) → length more ≡ count → number more ≡ value
            → Assembles (record self.old { part = pending.part; window = window_of pending }) bits
            → Assembles (record self.new { part = result.part; window = window_of result }) (bits ++ more) }
    {
        let bits = pending.bits.wrapping_add(u32::from(value) << pending.part);
        let part = pending.part + count;
        if part < 8 {
            return Pending {
                bits,
                part,
                last: pending.last,
            };
        }
        let octet = (bits % 256) as u8;
        let next = Pending {
            bits: bits / 256,
            part: part - 8,
            last: octet,
        };
        if self.whole.is_full() {
            self.long = true;
            return next;
        }
        self.whole.push(octet);
        next
    }
}
