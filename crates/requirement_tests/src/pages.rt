// The page of a report, written by hand.
use crate::faces::QUOTED;
use crate::reporting::reported;
use requirement_answers::Scope;
use requirement_page::page;
use requirement_questions::Limits;
use std::test::Fail;

const LIMITS: Limits = Limits { steps: 100_000 };

/// What stands on the page, without its style and its pictures.
const PIECES: &[&str] = &[
    r##"<!DOCTYPE html>
<html lang="en">
<head>
<meta charset="utf-8">
<meta name="viewport" content="width=device-width, initial-scale=1">
<meta http-equiv="Content-Security-Policy" content="default-src 'none'; style-src 'unsafe-inline'">
<title>Requirements: not as wished</title>
"##,
    r##"<body>
<h1>Requirements: <span class="word bad">not as wished</span></h1>
<table class="counts">
<tr><td>met together</td><td>1 of 3</td></tr>
<tr><td>follows</td><td>1 of 1</td></tr>
<tr><td>keeps all</td><td>0 of 1</td></tr>
</table>
<h2>Answers</h2>
<article class="bad" id="answer-1">
<h3><span class="word bad">conflict</span> <a href="#item-1"><bdi>&lt;b&gt;"Q" &amp; 'q'&lt;/b&gt;</bdi></a>, <a href="#item-3"><bdi>ask</bdi></a></h3>
<p><strong><a href="#item-1"><bdi>&lt;b&gt;"Q" &amp; 'q'&lt;/b&gt;</bdi></a></strong></p>
<p><bdi>It \ rains, then é.</bdi></p>
<p><code><bdi>p &amp; !q &amp; r</bdi></code></p>
<p>matters: <code><bdi>((p &amp; !q) &amp; …)</bdi></code></p>
<p><strong><a href="#item-3"><bdi>ask</bdi></a></strong></p>
<p><code><bdi>G (p -&gt; q)</bdi></code></p>
<p>matters: <code><bdi>G (p -&gt; q)</bdi></code></p>
<p>no first state meets them</p>
</article>
<article class="good" id="answer-2">
<h3><span class="word good">consistent</span> 1 of 3</h3>
<p>without: <a href="#item-1"><bdi>&lt;b&gt;"Q" &amp; 'q'&lt;/b&gt;</bdi></a>, <a href="#item-3"><bdi>ask</bdi></a></p>
<div class="picture">
<svg "##,
    r##"</svg>
</div>
</article>
<article class="good" id="answer-3">
<h3><span class="word good">follows</span> <a href="#item-4"><bdi>&lt;/p&gt;&lt;script&gt;</bdi></a></h3>
<p><bdi>1 &lt; 2 &amp;&amp; "3" &gt; 2</bdi></p>
<p><code><bdi>r</bdi></code></p>
<p>because of: <a href="#item-2"><bdi>calm</bdi></a></p>
</article>
<article class="bad" id="answer-4">
<h3><span class="word bad">breaks</span> <a href="#item-5"><bdi>log "1"</bdi></a></h3>
<p><a href="#item-1"><bdi>&lt;b&gt;"Q" &amp; 'q'&lt;/b&gt;</bdi></a> at 0</p>
<p><a href="#item-2"><bdi>calm</bdi></a> at 0</p>
<p><a href="#item-3"><bdi>ask</bdi></a> at 0</p>
<p>asked: <code><bdi>p</bdi></code></p>
<p>not answered: <code><bdi>q</bdi></code></p>
<div class="picture">
<svg "##,
    r##"</svg>
</div>
</article>
<h2>Items</h2>
<article id="item-1">
<h3>assume <bdi>&lt;b&gt;"Q" &amp; 'q'&lt;/b&gt;</bdi></h3>
<p><bdi>It \ rains, then é.</bdi></p>
<p><code><bdi>p &amp; !q &amp; r</bdi></code></p>
<p><a href="#answer-1">conflict</a></p>
</article>
<article id="item-2">
<h3>assume <bdi>calm</bdi></h3>
<p><code><bdi>r &amp; wX false</bdi></code></p>
</article>
<article id="item-3">
<h3>require <bdi>ask</bdi></h3>
<p><code><bdi>G (p -&gt; q)</bdi></code></p>
<p><a href="#answer-1">conflict</a></p>
</article>
<article id="item-4">
<h3>ensure <bdi>&lt;/p&gt;&lt;script&gt;</bdi></h3>
<p><bdi>1 &lt; 2 &amp;&amp; "3" &gt; 2</bdi></p>
<p><code><bdi>r</bdi></code></p>
<p><a href="#answer-3">follows</a></p>
</article>
<article id="item-5">
<h3>behaviour <bdi>log "1"</bdi></h3>
<p><a href="#answer-4">breaks</a></p>
</article>
</body>
</html>
"##,
];

#[test]
fn writes_pages(rt: HostRuntime) -> Result<(), Fail> {
    let alloc = rt.alloc();
    let (document, report) = reported(&rt, alloc, QUOTED, Scope::All, LIMITS)?;
    let text = page(alloc, &document, &report, Scope::All, LIMITS)?;
    let text = String::from_utf8(text)?;
    for piece in PIECES {
        assert!(rt; text.as_str().contains(*piece), "{piece}");
    }
    Ok(())
}
