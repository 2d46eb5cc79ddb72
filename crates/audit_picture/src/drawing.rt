//! A picture as SVG. The text has digits, hex digits and the words of this program alone, so nothing in it has to be
//! escaped.

ghost use Rattle.std.specs.Prelude.{IfOk, string_bytes};
ghost use Rattle.audit_picture.specs.Findings.{findings_in};
ghost use Rattle.audit_picture.specs.Pictures.{IsPicture, drawn_in};

use crate::blocks_drawn::{put_blocks, put_columns, put_links};
use crate::description::put_description;
use crate::lanes::put_lanes;
use crate::layout::Layout;
use crate::notes::{put_findings, put_left_out, put_legend, put_sources};
use crate::scene::Scene;
use std::alloc::{AllocError, Global};
use std::fmt::Write;

/// How each class looks. Frames differ in width and dashes as well as in colour.
const STYLE: &str =
    "text { font-family: Arial, Helvetica, sans-serif; font-size: 13px; fill: #1a1a1a; }
.id { font-family: 'DejaVu Sans Mono', Menlo, Consolas, monospace; text-anchor: middle; }
.in, .view, .gap { text-anchor: middle; }
.view, .part, .culprit { font-weight: bold; }
.beside { text-anchor: end; }
.finding { font-size: 18px; font-weight: bold; }
.block .alarm { text-anchor: middle; }
.alarm { fill: #b00020; font-weight: bold; }
.guide { stroke: #e2e2e2; fill: none; }
.link { stroke: #444444; stroke-width: 2; fill: none; }
.outside { stroke: #444444; stroke-width: 2; stroke-dasharray: 3 3; fill: none; }
.joint { fill: #444444; }
.block rect { fill: #ffffff; stroke: #444444; stroke-width: 1.5; }
.genesis rect { fill: #eeeeee; }
.uncertified rect { stroke-dasharray: 5 4; }
.committed rect { fill: #d6e8f5; stroke: #005a9c; stroke-width: 2.5; }
.conflict rect { fill: #fde3e3; stroke: #b00020; stroke-width: 4; }
rect.lane { fill: #f5f5f5; }
.pair { stroke: #b00020; stroke-width: 2; fill: none; }
.vote rect { fill: #ffffff; stroke: #b00020; stroke-width: 1.5; }
";

/// .. where a reader wants dark.
const DARK: &str = "@media (prefers-color-scheme: dark) {
svg > rect { fill: #16181c; }
text { fill: #eeeeee; }
.alarm { fill: #ff9aa6; }
.guide { stroke: #33363c; }
.link, .outside { stroke: #b8bcc4; }
.joint { fill: #b8bcc4; }
.block rect { fill: #22252b; stroke: #b8bcc4; }
.genesis rect { fill: #33363c; }
.committed rect { fill: #10304a; stroke: #6ab0e8; }
.conflict rect { fill: #3d1218; stroke: #ff9aa6; }
rect.lane { fill: #1e2126; }
.pair { stroke: #ff9aa6; }
.vote rect { fill: #22252b; stroke: #ff9aa6; }
}
";

/// What a picture is for.
#[derive(Clone, Copy, Debug, PartialEq, Eq)]
pub enum Purpose {
    /// A file: coloured for light.
    Audit,
    /// A page: coloured for light, and for dark where a reader wants that.
    Watch,
}

impl Purpose {
    fn title(self) -> &'static str {
        match self {
            Purpose::Audit => "Blocks, commits and culprits of an audit",
            Purpose::Watch => "Blocks, commits and culprits that a watch has seen",
        }
    }

    fn dark(self) -> &'static str {
        match self {
            Purpose::Audit => "",
            Purpose::Watch => DARK,
        }
    }
}

/// With what a picture begins.
const FRONT: &str = "<svg xmlns=\"http://www.w3.org/2000/svg\" ";

// What stands above the findings.
fn frame(alloc: Global, layout: &Layout, purpose: Purpose) -> Result<String, AllocError> {
    let width = layout.width();
    let height = layout.height();
    let mut text = String::new(alloc);
    writeln!(
        text,
        "width=\"{width}\" height=\"{height}\" viewBox=\"0 0 {width} {height}\" role=\"img\">"
    )?;
    let title = purpose.title();
    writeln!(text, "<title>{title}</title>\n<style>")?;
    text.push_str(STYLE)?;
    text.push_str(purpose.dark())?;
    text.push_str("</style>\n")?;
    writeln!(
        text,
        "<rect width=\"{width}\" height=\"{height}\" fill=\"#ffffff\"/>"
    )?;
    Ok(text)
}

// The columns, and the links of the blocks.
fn lines(alloc: Global, layout: &Layout, scene: &Scene) -> Result<String, AllocError> {
    let mut text = String::new(alloc);
    put_left_out(&mut text, scene)?;
    put_columns(&mut text, layout, scene)?;
    put_links(&mut text, layout, scene)?;
    Ok(text)
}

fn legend(alloc: Global, layout: &Layout) -> Result<String, AllocError> {
    let mut text = String::new(alloc);
    put_legend(&mut text, layout)?;
    Ok(text)
}

/// The text of the picture. AllocError comes where memory is refused.
pub fn draw(alloc: Global, scene: &Scene, purpose: Purpose) -> Result<String, AllocError>
    ensures { IfOk result (λ text.
        IsPicture (findings_in scene.now) (drawn_in scene.now) (string_bytes text)) }
{
    let layout = Layout::of(scene);
    let above = frame(alloc, &layout, purpose)?;
    let lines = lines(alloc, &layout, scene)?;
    let legend = legend(alloc, &layout)?;
    let mut text = String::from_str(alloc, FRONT)?;
    text.push_str(&above)?;
    put_description(&mut text, alloc, scene)?;
    put_findings(&mut text, alloc, scene)?;
    text.push_str(&lines)?;
    put_blocks(&mut text, alloc, &layout, scene)?;
    put_lanes(&mut text, alloc, &layout, scene)?;
    text.push_str(&legend)?;
    put_sources(&mut text, &layout, scene)?;
    text.push_str("</svg>\n")?;
    Ok(text)
}
