// The number of the interface, for C.
ghost use Rattle.std.specs.Prelude.{◌≡◌};
ghost use Rattle.host.specs.Interface.{interface_number};

// The number of the interface of this library, for a host that asks when it runs.
#[unsafe(no_mangle)]
pub extern "C" fn unmavreth_interface() -> u32
    ensures { result ≡ interface_number }
{
    host::version::unmavreth_interface()
}

// The header and the Rust crate refer to it by this name, so that neither links with a library of another number.
#[unsafe(no_mangle)]
pub extern "C" fn unmavreth_interface_5() -> u32
    ensures { result ≡ interface_number }
{
    host::version::unmavreth_interface_5()
}
