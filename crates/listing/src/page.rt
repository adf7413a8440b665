// A page: a place that is lent, written from its first byte on. Fields go onto it one after another, each with the byte that ends it.
ghost use Rattle.std.specs.Prelude.{◌≡◌, ◌+◌, ◌≤◌, [], ◌∷◌, ◌++◌, length, decimal};

// The place, and how many bytes of it are written.
#[derive(Drop)]
pub struct Page<'a> {
    place: &'a mut [u8],
    at: usize,
    ghost within: { at ≤ length place.now },
}

impl<'a> Page<'a> {
    ghost use Rattle.listing.specs.Put.{Put, room};

    // A page that has nothing yet.
    pub fn new(place: &'a mut [u8]) -> Page<'a>
        ensures blank { result.at ≡ 0 }
        ensures place { result.place.now ≡ place.old }
        ensures same { result.place.ghost_name ≡ place.entry.ghost_name }
    {
        Page { place, at: 0 }
    }

    // How many bytes are written.
    pub fn len(&self) -> usize
        ensures { result ≡ self.now.at }
    {
        self.at
    }

    // Writes bytes.
    fn put(&mut self, bytes: &[u8])
        requires { length bytes.now ≤ room self.old }
        ensures { Put bytes.now self.old self.new }
    {
        let end = self.at + bytes.len();
        self.place[self.at..end].copy_from_slice(bytes);
        self.at = end;
    }

    // A word as a field, with the byte that ends it.
    pub fn put_word(&mut self, word: &[u8], end: u8)
        requires { length word.now + 1 ≤ room self.old }
        ensures put { Put (word.now ++ (end ∷ [])) self.old self.new }
        ensures takes { room self.old ≡ room self.new + length word.now + 1 }
    {
        self.put(word);
        self.put(&[end]);
    }

    // Writes the digits of a number. With itoa the exported call took 64 bytes more of stack, and 2,347 of code.
    fn put_digits(&mut self, n: u64)
        requires { length (decimal n) ≤ room self.old }
        ensures { Put (decimal n) self.old self.new }
    {
        if n >= 10 {
            self.put_digits(n / 10);
        }
        self.put(&[b'0' + (n % 10) as u8]);
    }

    // A number as a field, with the byte that ends it. Inlined, the exported call takes 16 bytes more of stack.
    #[inline(never)]
    pub fn put_number(&mut self, n: u64, end: u8)
        requires { length (decimal n) + 1 ≤ room self.old }
        ensures put { Put (decimal n ++ (end ∷ [])) self.old self.new }
        ensures takes { room self.old ≡ room self.new + length (decimal n) + 1 }
    {
        self.put_digits(n);
        self.put(&[end]);
    }
}
