//! Node numbers: 0 to 3 are processors, 4 and 5 the devices, and 16 + b is the home of block b.

ghost use Rattle.std.specs.Prelude.{◌≡◌};
ghost use Rattle.message.specs.Nodes.{device_node, node_numbered, is_processor, is_device};

#[derive(Clone, Copy, Debug, PartialEq, Eq)]
pub enum Node {
    Processor(u32),
    Device(u32),
    // Not a `Block`: a function of another crate that matches on it gets no proof then.
    Home(u32),
}

impl Node {
    // Not a `TryFrom`: of a number that is no node's, nobody asks why.
    /// The node of this number, if there is one.
    pub fn numbered(number: u32) -> Option<Node>
        ensures { result ≡ node_numbered number }
    {
        match number {
            0..=3 => Some(Node::Processor(number)),
            4..=5 => Some(Node::Device(number - 4)),
            16..=31 => Some(Node::Home(number - 16)),
            _ => None,
        }
    }
}

/// The node of a device; a narrow number, so that the node's can always be had.
pub fn device_node(number: u8) -> u32
    ensures { result ≡ device_node number }
{
    4 + u32::from(number)
}

pub fn is_processor(node: u32) -> bool
    ensures { result ≡ is_processor node }
{
    node < 4
}

pub fn is_device(node: u32) -> bool
    ensures { result ≡ is_device node }
{
    node == 4 || node == 5
}
