//! Why a device's wish is not done, with the device's number.

ghost use Rattle.std.specs.Prelude.{◌≡◌};
ghost use Rattle.bridge.specs.Faults.{fault_number, fault_place};

#[derive(Clone, Copy, Debug, PartialEq, Eq)]
pub enum DeviceFault {
    /// The device wishes for nothing.
    NoWish(u32),
    /// No operation of a device, or one that goes to what is not there.
    BadWish(u32),
    /// An INT while a block request is out, or a block for which one is out.
    MustWait(u32),
}

impl DeviceFault {
    /// The number by which it is told, from 11 to 13.
    pub fn number(self) -> u32
        ensures { result ≡ fault_number self }
    {
        match self {
            DeviceFault::NoWish(_) => 11,
            DeviceFault::BadWish(_) => 12,
            DeviceFault::MustWait(_) => 13,
        }
    }

    /// The device's number.
    pub fn place(self) -> u32
        ensures { result ≡ fault_place self }
    {
        match self {
            DeviceFault::NoWish(device)
            | DeviceFault::BadWish(device)
            | DeviceFault::MustWait(device) => device,
        }
    }
}
