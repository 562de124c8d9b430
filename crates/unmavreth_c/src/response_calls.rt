// What a response comes to, for C.
ghost use Rattle.initiator.specs.Response.{AssessedAs};

use initiator::response::Assessment;

// Says what the response to a request of ours comes to; `sent` is the cookie in that request, empty if there was
// none. The cookie that came back is told by its offset, from which `unmavreth_cookie` hands it out.
#[unsafe(no_mangle)]
pub extern "C" fn unmavreth_assess(sent: &[u8], first: u8, body: &[u8]) -> Assessment
    ensures { AssessedAs sent.now first body.now result }
{
    host::responses::unmavreth_assess(sent, first, body)
}
