ghost use Rattle.objects.specs.Did.{Did, InContainer};
ghost use Rattle.templates.specs.Templates.{discretionary};

use elements::Refusal;
use objects::{Cursor, components, due_path, rest_in, sealed_if};
use rules::{Need, Sequence};

// The contents of a 73: providerId, odf_path, ciaInfoPath, aid, the SET, its rest.
pub fn discretionary(s: &[u8], end: usize, at: Cursor, out: &mut [u8]) -> Result<Cursor, Refusal>
    requires { InContainer s.now end at.dump at.book }
    ensures { Did out.old out.new at.book at.dump end (discretionary s.now end at.dump) result }
{
    let provider = sealed_if(s, 0x06, 0x0206, end, at, out)?;
    let odf = due_path(
        s,
        Sequence::OdfPath,
        0x30,
        Need::Optional,
        end,
        provider,
        out,
    )?;
    let info = due_path(s, Sequence::InfoPath, 0xa0, Need::Optional, end, odf, out)?;
    let aid = components(s, Sequence::Discretionary, end, info, out)?;
    let set = sealed_if(s, 0x31, 0x020e, end, aid, out)?;
    rest_in(s, Sequence::Discretionary, end, set, out)
}
