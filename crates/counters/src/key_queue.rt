// Keys in the order in which they are met. The contracts cite specs/Queues.
ghost use Rattle.std.specs.Prelude.{◌≡◌, ◌+◌, ◌<◌, length, set};
ghost use Rattle.counters.specs.Queues.{SameRoom};

// The first `len` of the keys that there is room for.
#[derive(Drop)]
pub struct KeyQueue<'a> {
    pub keys: &'a mut [u16],
    pub len: usize,
}

impl KeyQueue<'_> {
    pub fn push(&mut self, key: u16)
        requires room { self.old.len < length self.old.keys.now }
        ensures keys { self.new.keys.now ≡ set self.old.keys.now self.old.len key }
        ensures len { self.new.len ≡ self.old.len + 1 }
        ensures same_room { SameRoom self.old self.new }
    {
        self.keys[self.len] = key;
        self.len += 1;
    }
}
