// The layers that refuse, from the bytes of a message up.
ghost use Rattle.std.specs.Prelude.{◌≡◌};
ghost use Rattle.refusals.specs.Layers.{layer_number};

#[derive(Clone, Copy, Debug, PartialEq, Eq)]
pub enum Layer {
    Message = 1,
    Channel = 2,
    Node = 3,
}

impl Layer {
    pub fn number(&self) -> u8
        ensures { result ≡ layer_number self.now }
    {
        *self as u8
    }
}
