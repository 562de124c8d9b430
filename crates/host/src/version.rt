// The number of the interface, as `specs/Interface.antt` has it: a call gives it, and the name of another carries it.
ghost use Rattle.std.specs.Prelude.{◌≡◌};
ghost use Rattle.host.specs.Interface.{interface_number};

pub const INTERFACE: u32 = 5;

// The number of the interface of this library, for a host that asks when it runs.
pub fn unmavreth_interface() -> u32
    ensures { result ≡ interface_number }
{
    INTERFACE
}

// The header and the Rust crate refer to it by this name, so that neither links with a library of another number.
pub fn unmavreth_interface_5() -> u32
    ensures { result ≡ interface_number }
{
    unmavreth_interface()
}
