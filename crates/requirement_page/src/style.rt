// The style of the page, which stands in the page itself, so that it needs no other file. Its colours are for
// light and for dark screens, and for paper. No sort is told by its colour alone, since each answer has a
// word too.
ghost use Rattle.std.specs.Prelude.{◌≡◌, ◌++◌, OnOk};
ghost use Rattle.requirement_page.specs.Style.{colours, elements, articles, parts, printing, style};

use std::alloc::AllocError;

/// The colours by their use, for light screens and then for dark ones.
const COLOURS: [&[u8]; 4] = [
    b"\n\
      :root{color-scheme:light dark;--ink:#1f2328;--sheet:#ffffff;--line:#8c959f;--soft:#f6f8fa;",
    b"--good:#1a7f37;--bad:#b3261e;--remark:#8a5a00;--open:#57606a;--link:#0550ae}\n\
      @media (prefers-color-scheme:dark){\n",
    b":root{--ink:#e6edf3;--sheet:#0d1117;--line:#6e7681;--soft:#161b22;--good:#3fb950;\
      --bad:#ff7b72;",
    b"--remark:#d29922;--open:#9198a1;--link:#79c0ff}\n\
      }\n",
];

/// The page as a whole, headings, paragraphs, links and code.
const ELEMENTS: [&[u8]; 4] = [
    b"body{max-width:60rem;margin:0 auto;padding:1rem;background:var(--sheet);color:var(--ink);",
    b"font:1rem/1.5 system-ui,sans-serif;overflow-wrap:anywhere}\n\
      h1{font-size:1.5rem}\n\
      h2{font-size:1.25rem;margin-top:2rem}\n",
    b"h3{font-size:1rem;margin:0}\n\
      p,ul{margin:.4rem 0}\n\
      a{color:var(--link)}\n",
    b"code{font-family:'DejaVu Sans Mono',Consolas,monospace;font-size:.9rem}\n",
];

/// Articles and badges. Each sort sets `--tone`, the colour of its edge and its word.
const ARTICLES: [&[u8]; 5] = [
    b"article{margin:1rem 0;padding:.5rem .8rem;border:1px solid var(--line);",
    b"border-left:.4rem solid var(--tone,var(--line));background:var(--soft)}\n",
    b".word{display:inline-block;padding:0 .4rem;border:2px solid currentColor;\
      border-radius:.3rem;",
    b"color:var(--tone);font-weight:bold}\n\
      .good{--tone:var(--good)}\n\
      .bad{--tone:var(--bad)}\n\
      .remark{--tone:var(--remark)}\n",
    b".open{--tone:var(--open)}\n\
      .word.remark{border-style:dashed}\n\
      .word.open{border-style:dotted}\n",
];

/// The table of counts, and the frame in which a wide picture is moved sideways.
const PARTS: &[u8] = b".counts{border-collapse:collapse}\n\
    .counts td{padding:.1rem 1rem .1rem 0}\n\
    .picture{overflow-x:auto}\n";

/// What is different on paper: nothing can be moved there, so pictures are made to fit.
const PRINTING: [&[u8]; 2] = [
    b"@media print{\n\
      body{max-width:none;padding:0}\n\
      article{break-inside:avoid;background:none}\n\
      .picture{overflow:visible}\n",
    b".picture svg{max-width:100%;height:auto}\n\
      }\n",
];

/// Adds the whole style.
pub fn put_style(out: &mut Vec<u8>) -> Result<(), AllocError>
    ensures { OnOk result (out.new.items ≡ out.old.items ++ style) }
{
    put_colours(out)?;
    put_elements(out)?;
    put_articles(out)?;
    put_parts(out)?;
    put_printing(out)
}

fn put_colours(out: &mut Vec<u8>) -> Result<(), AllocError>
    ensures { OnOk result (out.new.items ≡ out.old.items ++ colours) }
{
    out.extend_from_slice(COLOURS[0])?;
    out.extend_from_slice(COLOURS[1])?;
    out.extend_from_slice(COLOURS[2])?;
    out.extend_from_slice(COLOURS[3])
}

fn put_elements(out: &mut Vec<u8>) -> Result<(), AllocError>
    ensures { OnOk result (out.new.items ≡ out.old.items ++ elements) }
{
    out.extend_from_slice(ELEMENTS[0])?;
    out.extend_from_slice(ELEMENTS[1])?;
    out.extend_from_slice(ELEMENTS[2])?;
    out.extend_from_slice(ELEMENTS[3])
}

fn put_articles(out: &mut Vec<u8>) -> Result<(), AllocError>
    ensures { OnOk result (out.new.items ≡ out.old.items ++ articles) }
{
    out.extend_from_slice(ARTICLES[0])?;
    out.extend_from_slice(ARTICLES[1])?;
    out.extend_from_slice(ARTICLES[2])?;
    out.extend_from_slice(ARTICLES[3])?;
    out.extend_from_slice(ARTICLES[4])
}

fn put_parts(out: &mut Vec<u8>) -> Result<(), AllocError>
    ensures { OnOk result (out.new.items ≡ out.old.items ++ parts) }
{
    out.extend_from_slice(PARTS)
}

fn put_printing(out: &mut Vec<u8>) -> Result<(), AllocError>
    ensures { OnOk result (out.new.items ≡ out.old.items ++ printing) }
{
    out.extend_from_slice(PRINTING[0])?;
    out.extend_from_slice(PRINTING[1])
}
